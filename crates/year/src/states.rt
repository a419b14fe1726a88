// The states of a year. Each is a type of its own, so that a call out of turn does not build.

// A year to post to. Only opening makes one.
#[derive(Drop)]
pub struct OpenYear {
    // How many records were accepted, as far as the number goes.
    pub(crate) accepted: u64,
}

// A year whose volumes are reconciled.
#[derive(Drop)]
pub struct VolumeSettledYear {
    pub(crate) accepted: u64,
}

// A year whose costs are reconciled too.
#[derive(Drop)]
pub struct SettledYear {
    pub(crate) accepted: u64,
}
