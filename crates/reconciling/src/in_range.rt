// Values whose figures have ranges, and those of them that are in range.
ghost use Rattle.std.specs.Prelude.{◌≡◌, Bool, true, if◌then◌else◌, Some, None};

use std::marker::Model;

// What says of a value that it is in its range.
pub(crate) trait Ranged: Copy {
    ghost in_range: { Self → Bool };
}

// What is to be tested for it.
pub(crate) trait RangeTest: Ranged {
    fn in_range(&self) -> bool
        ensures { result ≡ Self.in_range self.now };
}

// A value that is in its range. A clause sees the value.
#[derive(Drop)]
pub(crate) struct InRange<R: Ranged> {
    value: R,
}

impl<R: Ranged> Model for InRange<R> {
    ghost use Rattle.std.specs.Prelude.{◌≡◌, true};

    ghost Value = { R };

    ghost view = { λ r. r.value };

    ghost invariant = { λ r. R.in_range r.value ≡ true };
}

impl<R: Ranged> InRange<R> {
    // The value, if it is in its range.
    pub(crate) fn check(value: R) -> Option<InRange<R>>
    where
        R: RangeTest,
        ensures { result ≡ (if R.in_range value then Some value else None) }
    {
        // No `then`: the value is made only where the test held.
        if value.in_range() {
            Some(InRange { value })
        } else {
            None
        }
    }

    pub(crate) fn of(value: R) -> InRange<R>
        requires { R.in_range value ≡ true }
        ensures { result ≡ value }
    {
        InRange { value }
    }

    // Tells a proof that the value is in range. Nothing runs.
    pub(crate) fn known(&self)
        ensures { R.in_range self.now ≡ true }
    {
        let _ = &self.value;
    }

    pub(crate) fn get(&self) -> R
        ensures value { result ≡ self.now }
        ensures in_range { R.in_range result ≡ true }
    {
        self.value
    }
}
