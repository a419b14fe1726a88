// Who is told of each post as a batch is gone through.
use amounts::Refusal;

// A trait and no pair of closures: one watcher counts and keeps both, and two closures could not share what they write.
pub trait Watch {
    // The record at `place` was accepted, and the next one begins at `next`.
    fn accepted(&mut self, place: usize, next: usize);

    // A record was refused.
    fn refused(&mut self, refusal: Refusal);
}
