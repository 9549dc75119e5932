// Active starts with their authors.
ghost use Rattle.std.specs.Prelude.{◌≡◌, ◌==◌, ◌&&◌, true, IsTrue, if◌then◌else◌};
ghost use Rattle.dg_oracle.specs.Commits.{is_active as active_of};
ghost use Rattle.dg_zero.specs.Counters.{starts_of, ended, is_active_of as active_of_author};

use std::marker::Model;

// A start, and who began it.
#[derive(Drop)]
pub(crate) struct Start {
    start: u64,
    author: u32,
}

impl Model for Start {
    ghost use Rattle.dg_zero.specs.Counters.{Started};

    ghost Value = { Started };

    ghost view = { λ s. record { start = s.start; author = s.author } };
}

impl Start {
    ghost use Rattle.std.specs.Prelude.{◌≡◌, ◌==◌, ◌&&◌};

    pub(crate) fn new(start: u64, author: u32) -> Start
        ensures { result ≡ record { start = start; author = author } }
    {
        Start { start, author }
    }

    fn start(&self) -> u64
        ensures { result ≡ self.now.start }
    {
        self.start
    }

    fn is(&self, start: u64, author: u32) -> bool
        ensures { result ≡ ((self.now.start == start) && (self.now.author == author)) }
    {
        self.start == start && self.author == author
    }
}

// Whether a start is active.
pub(crate) fn is_active(starts: &[Start], start: u64) -> bool
    ensures { result ≡ active_of (starts_of starts.now) start }
{
    starts.iter().map(|s| s.start()).any(|s| s == start)
}

// Whether a start is active, and this author began it.
pub(crate) fn is_active_of(starts: &[Start], start: u64, author: u32) -> bool
    ensures { result ≡ active_of_author starts.now start author }
{
    starts.iter().any(|s| s.is(start, author))
}

// Whether an author may end a start.
pub(crate) fn may_end(starts: &[Start], start: u64, author: u32) -> bool
    ensures { IsTrue result → active_of (starts_of starts.now) start ≡ true → active_of_author starts.now start author ≡ true }
{
    !is_active(starts, start) || is_active_of(starts, start, author)
}

// Leaves the starts but this one.
pub(crate) fn drop_start(starts: &mut Vec<Start>, start: u64)
    ensures { starts.new.items ≡ ended starts.old.items start }
{
    starts.retain(|s| s.start() != start);
}

// Leaves the starts but this one, where it has ended.
pub(crate) fn drop_ended(starts: &mut Vec<Start>, start: u64, has_ended: bool)
    ensures { starts.new.items ≡ (if has_ended then ended starts.old.items start else starts.old.items) }
{
    if has_ended {
        drop_start(starts, start);
    }
}
