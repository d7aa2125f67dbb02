// The SP-box: a column in, a column out.
ghost use Rattle.std.specs.Prelude.{◌≡◌};
ghost use Rattle.gimli.specs.Permutation.{sp_box};

// The words of a column, from row 0 to row 2.
pub type Column = (u32, u32, u32);

pub fn sp_box(column: Column) -> Column
    ensures { result ≡ sp_box column }
{
    let x = column.0.rotate_left(24);
    let y = column.1.rotate_left(9);
    let z = column.2;
    (
        z ^ y ^ ((x & y) << 3),
        y ^ x ^ ((x | z) << 1),
        x ^ (z << 1) ^ ((y & z) << 2),
    )
}
