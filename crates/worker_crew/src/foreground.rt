//! What the caller does while the threads run.

/// What the caller does while the threads run, and where it keeps what they hand back. All that the caller changes meanwhile stands behind one `&mut`
/// of it, since nothing is known of another one that the threads' scope borrows.
pub trait Foreground<K> {
    /// What turns of serving may make of it.
    ghost served: { Self → Self → Type 0 };

    /// It before what the threads hand back is kept, what that is, and it after that.
    ghost keeps: { Self → K → Self → Type 0 };

    /// One turn of the caller's own work. Whether anything moved in it; where nothing did, it is asked again while threads run.
    fn serve(&mut self) -> bool
        ensures { served self.old self.new };

    /// Keeps what the threads hand back.
    fn keep(&mut self, kept: K)
        ensures { keeps self.old kept self.new };

    /// No turn at all is a number of turns.
    ghost unserved: { (a : Self) → served a a };

    /// Turns after turns are turns.
    ghost goes_on: { (a b c : Self) → served a b → served b c → served a c };
}

/// The foreground that does nothing.
#[derive(Drop)]
pub(crate) struct Idle;

impl<K: Drop> Foreground<K> for Idle {
    ghost use Rattle.std.specs.Prelude.{⊤};

    ghost served = { λ a b. ⊤ };

    ghost keeps = { λ a k b. ⊤ };

    ghost unserved = { λ a. tt };

    ghost goes_on = { λ a b c f g. tt };

    fn serve(&mut self) -> bool {
        false
    }

    fn keep(&mut self, kept: K) {
        drop(kept);
    }
}
