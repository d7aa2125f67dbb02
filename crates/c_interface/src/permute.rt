// One permutation of a state's string, on each kind of engine.
ghost use Rattle.std.specs.Prelude.{◌≡◌, ◌*◌, length};
ghost use Rattle.engine.specs.Strings.{width};
ghost use Rattle.gimli.specs.Permutation.{permutation};
ghost use Rattle.gimli.specs.Strings.{string};
ghost use Rattle.c_interface.specs.Permuting.{row_bytes, sharing_string, Permuted, SharesRead, SharesPermuted};

use engine::engine::WIDTH;
use gimli::rounds::permutation;
use gimli::shares::Shares;
use gimli::standing::standing_permutation;
use gimli::state::State;

// Permutes a state's string as the plain engine does. `false`: it is not 48 bytes, and is as it was (C has no Option).
#[unsafe(no_mangle)]
pub extern "C" fn gimli_permute_plain(state: &mut [u8]) -> bool
    ensures { Permuted state.old result state.new }
{
    permute_string(state, permutation)
}

// The same as the standing engine does it.
#[unsafe(no_mangle)]
pub extern "C" fn gimli_permute_standing(state: &mut [u8]) -> bool
    ensures { Permuted state.old result state.new }
{
    permute_string(state, |words| standing_permutation(words).stored)
}

// Permutes three shares, one behind another, as the three-share engine does.
// `false`: they are not three times 48 bytes, and are as they were.
#[unsafe(no_mangle)]
pub extern "C" fn gimli_permute_three_share(shares: &mut [u8]) -> bool
    ensures { SharesPermuted shares.old result shares.new }
{
    let Some(words) = read_shares(shares) else {
        return false;
    };
    write_shares(words.permutation(), shares);
    true
}

// Permutes a state's string by a function that permutes a state; `false`, and nothing, if it is no state's.
fn permute_string<F: Fn(State) -> State>(string: &mut [u8], permute: F) -> bool
    requires callable { F.IsAlwaysCallable permute }
    requires permutes { (s t : _) → F.post permute s t → t ≡ permutation s }
    ensures { Permuted string.old result string.new }
{
    let Some(words) = State::from_bytes(string) else {
        return false;
    };
    string.copy_from_slice(&bytes(permute(words)));
    true
}

// The three shares of a string; none of another length.
fn read_shares(string: &[u8]) -> Option<Shares>
    ensures { SharesRead string.now result }
{
    let (parts, rest) = string.as_chunks::<WIDTH>();
    let [zeroth, first, second] = parts else {
        return None;
    };
    if !rest.is_empty() {
        return None;
    }
    Some(Shares {
        share: [
            State::from_bytes(zeroth)?,
            State::from_bytes(first)?,
            State::from_bytes(second)?,
        ],
    })
}

// Writes the strings of three shares, one behind another, over a string of that length.
fn write_shares(shares: Shares, string: &mut [u8])
    requires { length string.old ≡ 3 * width }
    ensures { string.new ≡ sharing_string shares.share }
{
    string.copy_from_slice(shares.share.map(bytes).as_flattened());
}

// The string of a state.
fn bytes(state: State) -> [u8; WIDTH]
    ensures { result ≡ string state }
{
    let rows = [
        row_bytes(state.top),
        row_bytes(state.middle),
        row_bytes(state.bottom),
    ];
    let mut string = [0; WIDTH];
    string.copy_from_slice(rows.as_flattened());
    string
}

// The words of a row, the lowest byte of each first.
fn row_bytes(row: [u32; 4]) -> [u8; 16]
    ensures { result ≡ row_bytes row }
{
    let mut bytes = [0; 16];
    bytes.copy_from_slice(row.map(u32::to_le_bytes).as_flattened());
    bytes
}
