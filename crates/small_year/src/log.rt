// What a closing tells of its posts: how many were accepted, and the first refusals.
use amounts::Refusal;
use closing::Watch;

// How many refusals are kept.
const KEPT: usize = 8;

#[derive(Default, Drop)]
pub(crate) struct PostLog {
    pub(crate) accepted: usize,
    pub(crate) refused: usize,
    pub(crate) refusals: [Option<Refusal>; KEPT],
}

impl Watch for PostLog {
    fn accepted(&mut self, _place: usize, _next: usize) {
        self.accepted = self.accepted.saturating_add(1);
    }

    fn refused(&mut self, refusal: Refusal) {
        if let Some(kept) = self.refusals.get_mut(self.refused) {
            *kept = Some(refusal);
        }
        self.refused = self.refused.saturating_add(1);
    }
}
