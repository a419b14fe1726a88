// What a list asks of its lines: a key. It is one number made of the key fields, by a rule of the project, and no tuple of them.
ghost use Rattle.std.specs.Prelude.{◌≡◌, ℕ};

// How many values a key field has: one of 8 bits, and the category, of 16.
pub(crate) const BYTE_VALUES: u64 = 256;

pub(crate) const CATEGORY_VALUES: u64 = 65_536;

pub trait Line: Copy {
    ghost key: { Self → ℕ };

    fn key(&self) -> u64
        ensures { result ≡ key self.now };
}
