//! What a child gets of the pages of a process.

ghost use Rattle.std.specs.Prelude.{◌≡◌, ◌<◌, ◌≤◌, ℕ, IfOk, None, OnOk, if◌then◌else◌};
ghost use Rattle.std.specs.Prelude.{option_and_then};
ghost use Rattle.std.specs.Ordering.{nat_cmp};
ghost use Rattle.std.specs.BTreeMap.{get};
ghost use Rattle.av_base.specs.Limits.{top_page};
ghost use Rattle.av_plain.specs.Fork.{goes_over};
ghost use Rattle.av_plain.specs.World.{Process, World, child_of, pages, set_process};
ghost use Rattle.av_audit_ranges.specs.Ranges.{marks_at};
ghost use Rattle.av_audit_world.specs.Child.{bytes_go, marks_of_child};
ghost use Rattle.av_audit_world.specs.Memories.{IsWorld};
ghost use Rattle.av_audit_world.specs.Space.{IsSpace, byte_in};

use crate::kept::Kept;
use crate::memories::Memories;
use crate::space::Space;
use av_audit_ranges::{Marks, Ranges};
use av_base::TOP_PAGE;
use std::alloc::AllocError;

/// What is said of a page in a child, if that gets the page.
fn marks_for_child(marks: Option<Marks>) -> Option<Marks>
    ensures { result ≡ option_and_then marks_of_child marks }
{
    let marks = marks?;
    if marks.flags.dont_fork {
        return None;
    }
    let flags = marks.flags.unlocked();
    Some(Marks { flags, ..marks })
}

/// Whether what is in a page goes over to a child.
fn go_over(marks: Option<Marks>) -> bool
    ensures { result ≡ bytes_go marks }
{
    match marks {
        None => false,
        Some(marks) => !marks.flags.dont_fork && !marks.flags.wipe_on_fork,
    }
}

impl Space {
    /// What is said of a child's pages.
    fn child_ranges(&self) -> Result<Ranges, AllocError>
        ensures below { IfOk result (λ made. (page : ℕ) → page < top_page
            → marks_at made page ≡ option_and_then marks_of_child (marks_at self.now.ranges page)) }
        ensures top { IfOk result (λ made. (page : ℕ) → top_page ≤ page
            → marks_at made page ≡ None) }
    {
        let mut made = Ranges::new(self.alloc);
        let mut at = 0;
        while at < TOP_PAGE {
            let from = at;
            at = self.ranges.same_up_to(from, TOP_PAGE);
            let Some(marks) = marks_for_child(self.marks(from)) else {
                continue;
            };
            made.put(from, at - from, marks)?;
        }
        Ok(made)
    }

    /// Whether what is in a page goes over to a child.
    fn gives(&self, page: u64) -> bool
        ensures { result ≡ bytes_go (marks_at self.now.ranges page) }
    {
        go_over(self.marks(page))
    }

    /// The bytes of a child's pages.
    fn child_bytes(&self) -> Result<Kept, AllocError>
        ensures { IfOk result (λ made. (page : ℕ) → page < top_page
            → byte_in (get nat_cmp made page) ≡ byte_in (if bytes_go (marks_at self.now.ranges page)
            then get nat_cmp self.now.bytes page else None)) }
    {
        let mut bytes = self.bytes.clone()?;
        bytes.retain(|page, _| self.gives(*page));
        Ok(bytes)
    }

    /// What a child gets of the pages.
    fn child(&self) -> Result<Space, AllocError>
        ensures { IfOk result (λ made. (q : Process) → IsSpace self.now q
            → IsSpace made (child_of q)) }
    {
        let ranges = self.child_ranges()?;
        let bytes = self.child_bytes()?;
        let alloc = self.alloc;
        Ok(Space {
            alloc,
            ranges,
            bytes,
        })
    }
}

impl Memories {
    /// Whether the entry of a page of a process goes over to a child.
    pub fn goes_over(&self, number: u16, page: u64) -> bool
        ensures { (w : World) → IsWorld self.now w → result ≡ goes_over (pages w number page) }
    {
        match self.spaces.get(&number) {
            None => false,
            Some(space) => space.gives(page),
        }
    }

    /// What a child gets of the pages of a process.
    fn child(&self, number: u16) -> Result<Space, AllocError>
        ensures { IfOk result (λ made. (w : World) → IsWorld self.now w
            → IsSpace made (child_of (pages w number))) }
    {
        match self.spaces.get(&number) {
            None => Ok(Space::new(self.alloc)),
            Some(space) => space.child(),
        }
    }

    /// A process gets what a child gets of another's pages, and lives. Without memory a part may be
    /// done.
    pub fn fork(&mut self, parent: u16, child: u16) -> Result<(), AllocError>
        ensures { OnOk result ((w : World) → IsWorld self.old w
            → IsWorld self.new (set_process w child (child_of (pages w parent)))) }
    {
        let space = self.child(parent)?;
        self.set(child, space)
    }
}
