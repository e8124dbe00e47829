//! What is kept of each anon_vma, by its number.
ghost use Rattle.std.specs.Prelude.{◌≡◌, ℕ, Some, None, IsSome, IfOk, OnOk, option_map};
ghost use Rattle.av_base.specs.Words.{with_at};
ghost use Rattle.av_anon.specs.Infos.{info_in, with_info, more_active, less_active, more_children};
ghost use Rattle.av_anon.specs.Infos.{less_children};

use std::alloc::{AllocError, Global};
use std::collections::HashMap;

/// An anon_vma: its root and its parent, how many anon_vmas have it as parent (a root counts
/// itself), and how many areas have it as their own.
#[derive(Clone, Copy, Drop, Debug, PartialEq, Eq)]
pub struct Info {
    pub root: u64,
    pub parent: u64,
    pub children: u64,
    pub active: u64,
}

/// The anon_vmas that there are.
#[derive(Drop)]
pub(crate) struct Infos {
    map: HashMap<u64, Info>,
}

impl Infos {
    /// No anon_vma.
    pub(crate) fn new(alloc: Global) -> Infos
        ensures { (anon : ℕ) → info_in result anon ≡ None }
    {
        Infos {
            map: HashMap::new(alloc),
        }
    }

    pub(crate) fn get(&self, anon: u64) -> Option<Info>
        ensures { result ≡ info_in self.now anon }
    {
        self.map.get(&anon).copied()
    }

    /// Puts what is kept of an anon_vma in place of what was.
    pub(crate) fn put(&mut self, anon: u64, info: Info) -> Result<(), AllocError>
        ensures { OnOk result (info_in self.new ≡ with_at anon (Some info) (info_in self.old)) }
    {
        self.map.insert(anon, info)?;
        Ok(())
    }

    pub(crate) fn remove(&mut self, anon: u64)
        ensures { info_in self.new ≡ with_at anon None (info_in self.old) }
    {
        let _ = self.map.remove(&anon);
    }

    /// One area more has the anon_vma as its own.
    pub(crate) fn count_active_up(&mut self, anon: u64) -> Result<(), AllocError>
        requires { IsSome (info_in self.old anon) }
        ensures { OnOk result (info_in self.new ≡ with_info anon more_active (info_in self.old)) }
    {
        let Some(info) = self.map.get_mut(&anon) else {
            unreachable!()
        };
        let Some(active) = info.active.checked_add(1) else {
            return Err(AllocError);
        };
        info.active = active;
        Ok(())
    }

    /// One area less has the anon_vma as its own.
    pub(crate) fn count_active_down(&mut self, anon: u64)
        ensures { info_in self.new ≡ with_info anon less_active (info_in self.old) }
    {
        if let Some(info) = self.map.get_mut(&anon) {
            info.active = info.active.saturating_sub(1);
        }
    }

    /// One anon_vma more has this one as its parent. Answers its root.
    pub(crate) fn count_children_up(&mut self, anon: u64) -> Result<u64, AllocError>
        requires { IsSome (info_in self.old anon) }
        ensures root { IfOk result (λ root. option_map (λ i. i.root) (info_in self.old anon)
            ≡ Some root) }
        ensures infos { OnOk result
            (info_in self.new ≡ with_info anon more_children (info_in self.old)) }
    {
        let Some(info) = self.map.get_mut(&anon) else {
            unreachable!()
        };
        let Some(children) = info.children.checked_add(1) else {
            return Err(AllocError);
        };
        info.children = children;
        Ok(info.root)
    }

    /// One anon_vma less has this one as its parent, if it is there.
    pub(crate) fn count_children_down(&mut self, anon: u64)
        ensures { info_in self.new ≡ with_info anon less_children (info_in self.old) }
    {
        if let Some(info) = self.map.get_mut(&anon) {
            info.children = info.children.saturating_sub(1);
        }
    }
}
