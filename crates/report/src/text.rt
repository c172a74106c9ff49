// Bytes and numbers put behind what a lent buffer holds already.
ghost use Rattle.std.specs.Prelude.{◌≤◌, length};

// A lent buffer, of which the first `at` bytes are put so far.
// Kept: printing by hand, since `print` puts its report into a buffer that is lent (PrintCall), with no heap.
#[derive(Drop)]
pub struct Out<'a> {
    pub bytes: &'a mut [u8],
    pub at: usize,
    ghost within: { at ≤ length bytes.now },
}

impl Out<'_> {
    ghost use Rattle.std.specs.Prelude.{length};
    ghost use Rattle.rules.specs.definitions.Report.{decimal};
    ghost use Rattle.report.specs.Written.{RoomFor, Appended};

    // Puts the bytes.
    #[tactic(auto, using(std::proofs::lemmas::Slice::overwrites))]
    pub fn put(&mut self, bytes: &[u8])
        requires { RoomFor (length bytes.now) self.old }
        ensures { Appended (length bytes.now) self.old self.new bytes.now }
    {
        self.bytes[self.at..self.at + bytes.len()].copy_from_slice(bytes);
        self.at += bytes.len();
    }

    // Puts the number in decimal: the digits of its tenth, then its last.
    pub fn put_decimal(&mut self, n: u32)
        requires { RoomFor 10 self.old }
        ensures { Appended 10 self.old self.new (decimal n) }
    {
        if 10 <= n {
            self.put_decimal(n / 10);
        }
        self.put(&[b'0' + (n % 10) as u8]);
    }
}
