//! Stretches that grow in the order of ranks.

ghost use Rattle.std.specs.Prelude.{◌≡◌, ◌+◌, ◌-◌, ◌^◌, ◌<◌, ◌≤◌, Some, None, [], OnOk, OnErr, IfOk, IfSome, length, map};
ghost use Rattle.class_stretches.specs.Stretches.{class_at, end_of, IsStretchAt, IsStretched, MayCome, with_class, IsPushed, IsCopied};
ghost use Rattle.class_stretches.specs.Stretches.{missing_by, runs_with, run_of, AreRunsBy, AreTallies};

use crate::copying::copy_list;
use crate::list::{class_in, classes_with, end_of_list, put, stretch_in};
use crate::missing::{Missing, first_missing_in, missing_in};
use crate::rank_run::{RankRun, runs_by, runs_in};
use crate::stretch::Stretch;
use crate::tally::{Tally, tallies_of};
use sqlite_items::Items;
use std::alloc::{AllocError, Global};
use std::marker::Model;

/// The ranks from 0 up to an end, each with the number of its class where that is known. The classes have their numbers in the order in which they come.
pub struct Stretches {
    list: Vec<Stretch>,
    classes: u32,
}

// Written out and not derived, so that who owns one calls this and does not let its parts go one by one.
impl Drop for Stretches {
    fn drop(self) {
        let Stretches {
            list: _list,
            classes: _,
        } = self;
    }
}

impl Model for Stretches {
    ghost use Rattle.class_stretches.specs.Stretches.{Stretched, IsStretched};

    ghost Value = { Stretched };

    ghost view = { λ s. record { list = s.list.items; classes = s.classes } };

    ghost invariant = { λ s. IsStretched (record { list = s.list.items; classes = s.classes }) };
}

impl Stretches {
    /// No ranks yet, and no classes.
    pub fn new(alloc: Global) -> Stretches
        ensures { result ≡ record { list = []; classes = 0 } }
    {
        Stretches {
            list: Vec::new(alloc),
            classes: 0,
        }
    }

    /// The rank behind the last one.
    pub fn end(&self) -> u64
        ensures { result ≡ end_of self.now.list }
    {
        end_of_list(&self.list)
    }

    /// How many classes there are. Their numbers are those from 0 on.
    pub fn classes(&self) -> u32
        ensures classes { result ≡ self.now.classes }
        ensures stretched { IsStretched self.now }
    {
        let _list = &self.list;
        self.classes
    }

    /// Adds the ranks from the end up to a new one, which are all in one class: one that is there, the next one, or `None` where it is not known.
    pub fn push(&mut self, end: u64, class: Option<u32>) -> Result<(), AllocError>
        requires some { end_of self.old.list < end }
        requires class { MayCome self.old.classes class }
        requires room { with_class self.old.classes class < 2 ^ 32 }
        ensures ok { OnOk result (IsPushed self.old self.new end class) }
        ensures err { OnErr result (self.new ≡ self.old) }
    {
        put(&mut self.list, end, class)?;
        self.classes = classes_with(self.classes, class);
        Ok(())
    }

    /// Adds the ranks from the end up to a new one, which are in the classes of as many ranks from `from` on, in their order.
    /// Where memory runs out, some of them are added.
    pub fn copy(&mut self, from: u64, end: u64) -> Result<(), AllocError>
        requires some { end_of self.old.list < end }
        requires inside { from + (end - end_of self.old.list) ≤ end_of self.old.list }
        ensures ok { OnOk result (IsCopied self.old self.new from end) }
        ensures err { OnErr result (IsCopied self.old self.new from (end_of self.new.list)) }
    {
        copy_list(&mut self.list, from, end)
    }

    /// The class of a rank, or `None` where it is not known or the rank is past the last one.
    pub fn class_of(&self, rank: u64) -> Option<u32>
        ensures { result ≡ class_at self.now.list rank }
    {
        class_in(&self.list, rank)
    }

    /// The end and the class of the stretch that a rank is in: all ranks from this one up to that end are in that class. `None` where the rank is
    /// past the last one.
    pub fn stretch_of(&self, rank: u64) -> Option<Stretch>
        ensures found { IfSome result (IsStretchAt self.now.list rank) }
        ensures past { result ≡ None → end_of self.now.list ≤ rank }
    {
        stretch_in(&self.list, rank)
    }

    /// The least rank and the number of ranks of each class, in the order of their numbers.
    pub fn tallies(&self, alloc: Global) -> Result<Vec<Tally>, AllocError>
        ensures { IfOk result (λ tallies. AreTallies self.now.list self.now.classes tallies.items) }
    {
        tallies_of(alloc, &self.list)
    }

    /// The ranks that are in no known class, where there are any.
    pub fn missing(&self) -> Option<Missing>
        ensures { result ≡ missing_by (runs_with None 0 self.now.list) }
    {
        let first = first_missing_in(&self.list)?;
        Some(Missing {
            ranks: missing_in(&self.list),
            first,
        })
    }

    /// The runs of the ranks of a class.
    pub fn runs_of(&self, alloc: Global, class: u32) -> Result<Vec<RankRun>, AllocError>
        ensures { IfOk result (λ runs. map run_of runs.items ≡ runs_with (Some class) 0 self.now.list) }
    {
        runs_in(alloc, &self.list, Some(class))
    }

    /// The runs of the ranks that are in no known class.
    pub fn missing_runs(&self, alloc: Global) -> Result<Vec<RankRun>, AllocError>
        ensures { IfOk result (λ runs. map run_of runs.items ≡ runs_with None 0 self.now.list) }
    {
        runs_in(alloc, &self.list, None)
    }

    /// The runs of the ranks of each class, in the order of the classes' numbers. Linear in the stretches.
    pub fn runs_by_class(&self, alloc: Global) -> Result<Vec<Items<RankRun>>, AllocError>
        ensures { IfOk result (λ runs. AreRunsBy self.now.list self.now.classes runs.items) }
    {
        runs_by(alloc, &self.list, self.classes)
    }
}
