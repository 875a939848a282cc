//! What a thread does that found nothing to do, and how often it looks out for something. Few numbers decide it; nothing that is shared is read here.
ghost use Rattle.std.specs.Prelude.{◌≡◌, ◌<◌, ◌≤◌, ◌+◌, ◌*◌, ◌/◌};
ghost use Rattle.worker_crew.specs.Waits.{next_after};

// How often a thread looks at its lanes before it sleeps: at first, at least, and at most. A look takes some ten nanoseconds.
const FIRST: u32 = 2_000;

const LEAST: u32 = 200;

const MOST: u32 = 5_000;

// Of the waits of a thread that looks no more, one of so many has looks all the same.
const EACH: u32 = 16;

/// What a thread does behind a turn that moved nothing and had nothing to spare.
#[derive(Clone, Copy, Debug, PartialEq, Eq)]
pub(crate) enum Next {
    /// It looks at its lanes, so often at most.
    Look(u32),
    /// It gives its processor to another thread, where that is cheap.
    Yield,
    /// It says at its place for whom it is about to sleep, and tries its step once more.
    Announce,
    /// It sleeps until it is woken.
    Sleep,
}

/// What comes next: it sleeps exactly where that was announced. Else it looks, where it may have looks and no more threads are awake than there are
/// processors; else it gives its processor away, where it may do so.
pub(crate) fn next_for(is_announced: bool, looks: u32, yields: u32, is_crowded: bool) -> Next
    ensures { result ≡ next_after is_announced looks yields is_crowded }
{
    if is_announced {
        Next::Sleep
    } else if !is_crowded && looks > 0 {
        Next::Look(looks)
    } else if yields > 0 {
        Next::Yield
    } else {
        Next::Announce
    }
}

/// How often a thread looks at its lanes before it sleeps, as it has learnt, and how many waits it has let pass without a look.
#[derive(Clone, Copy, Drop)]
pub(crate) struct Budget {
    looks: u32,
    passed: u32,
    ghost bound: { looks ≤ 5000 },
    ghost few: { passed < 16 },
}

impl Budget {
    /// Before the first wait.
    pub(crate) fn new() -> Budget
        ensures { (result.looks ≡ 2000) × (result.passed ≡ 0) }
    {
        Budget {
            looks: FIRST,
            passed: 0,
        }
    }

    /// How often it looks in this wait. A thread whose looks were in vain looks in one wait of sixteen, a little.
    pub(crate) fn take(&mut self) -> u32
        ensures kept { self.new.looks ≡ self.old.looks }
        ensures learnt { 0 < self.old.looks → (result ≡ self.old.looks) × (self.new.passed ≡ self.old.passed) }
        ensures none { self.old.looks ≡ 0 → self.old.passed < 15 → (result ≡ 0) × (self.new.passed ≡ self.old.passed + 1) }
        ensures some { self.old.looks ≡ 0 → self.old.passed ≡ 15 → (result ≡ 200) × (self.new.passed ≡ 0) }
    {
        if self.looks > 0 {
            return self.looks;
        }
        if self.passed + 1 < EACH {
            self.passed += 1;
            return 0;
        }
        self.passed = 0;
        LEAST
    }

    /// Looks ended in time: there will be twice as many, from a least number to a most.
    pub(crate) fn double(&mut self)
        ensures passed { self.new.passed ≡ self.old.passed }
        ensures least { 2 * self.old.looks ≤ 400 → self.new.looks ≡ 400 }
        ensures double { 400 ≤ 2 * self.old.looks → 2 * self.old.looks ≤ 5000 → self.new.looks ≡ 2 * self.old.looks }
        ensures most { 5000 ≤ 2 * self.old.looks → self.new.looks ≡ 5000 }
    {
        let more = 2 * self.looks;
        self.looks = if more < 2 * LEAST {
            2 * LEAST
        } else if more > MOST {
            MOST
        } else {
            more
        };
    }

    /// Looks were in vain: there will be a quarter as many, or none, where that is below a least number.
    pub(crate) fn quarter(&mut self)
        ensures passed { self.new.passed ≡ self.old.passed }
        ensures none { self.old.looks / 4 < 200 → self.new.looks ≡ 0 }
        ensures quarter { 200 ≤ self.old.looks / 4 → self.new.looks ≡ self.old.looks / 4 }
    {
        let less = self.looks / 4;
        self.looks = if less < LEAST { 0 } else { less };
    }
}
