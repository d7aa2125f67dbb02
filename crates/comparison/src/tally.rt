// How many runs of a group agree, over how many bytes and in which shapes: fewer or shorter cases would agree too.
use std::io;

#[derive(Clone, Copy, Default)]
pub(crate) struct Tally {
    group: &'static str,
    agreed: u32,
    runs: u32,
    bytes: usize,
    shapes: usize,
}

impl Tally {
    pub(crate) fn new(group: &'static str) -> Tally {
        Tally {
            group,
            ..Tally::default()
        }
    }

    pub(crate) fn count(&mut self, agrees: bool) {
        self.runs = self.runs.saturating_add(1);
        if agrees {
            self.agreed = self.agreed.saturating_add(1);
        }
    }

    // Counts a run of case n, and says so if it differs.
    pub(crate) fn note(
        &mut self,
        rt: &HostRuntime,
        name: &str,
        n: usize,
        agrees: bool,
    ) -> io::Result<()> {
        self.count(agrees);
        if agrees {
            return Ok(());
        }
        println!(rt; "{}: {name} differs in {n}", self.group)
    }

    // Counts the bytes of a string that was compared.
    pub(crate) fn add_bytes(&mut self, string: &[u8]) {
        self.bytes = self.bytes.saturating_add(string.len());
    }

    // Marks the lengths and the size of pieces of a case, so that the output tells which were tried.
    pub(crate) fn add_shape(&mut self, shape: [usize; 3]) {
        for n in shape {
            self.shapes = self.shapes.wrapping_mul(31).wrapping_add(n);
        }
    }

    pub(crate) fn print(self, rt: &HostRuntime) -> io::Result<()> {
        let Tally {
            group,
            agreed,
            runs,
            bytes,
            shapes,
        } = self;
        print!(rt; "{group}: {agreed} of {runs} agree")?;
        match bytes {
            0 => println!(rt; ""),
            _ => println!(rt; ", over {bytes} bytes, shapes {shapes}"),
        }
    }
}
