//! The table of the live processes.

ghost use Rattle.std.specs.Prelude.{◌≡◌, ◌+◌, ◌<◌, ◌≤◌, ◌==◌, if◌then◌else◌, ℕ, Some, None, IsSome, [], false, true, length, slice_get};
ghost use Rattle.edi_ring.specs.Lists.{home_of, list_at, IsSound};
ghost use Rattle.edi_machine.specs.declared.activity.Activity.{Activity};
ghost use Rattle.edi_kernel.specs.Table.{
  Added,
  FirstAlone,
  PutsProcess,
  Removed,
  Notifies,
  Withdraws,
  at_its_when,
  first_home,
  free_slots,
  going_by,
  is_live,
  is_waiting,
  marked_with,
  marks_with,
  no_marks,
  process_at,
  ready_slots,
  resumed,
  unmarked,
  waiting_for,
  with_process,
};
ghost use Rattle.edi_kernel.specs.Kept.{Admits, is_ready};

use edi_machine::Activity;
use edi_ring::Lists;

/// As many processes may live at once.
pub(crate) const SLOTS: usize = 32;

/// The list of the slots whose processes are ready.
const READY: usize = 0;

/// The list of the free slots.
const FREE: usize = 1;

/// What a live process does while it is not taken.
#[derive(Clone, Copy, PartialEq, Eq, Hash)]
pub enum Standing {
    /// It goes on when it is taken.
    Ready,
    /// It stands at its `when`.
    AtWhen,
    /// It waits until so many children have ended.
    Waiting(usize),
}

/// A process: the slot of its parent, what it does, and its activity. The first process stands for its own parent.
#[derive(Clone, Copy)]
pub(crate) struct Process {
    pub(crate) parent: usize,
    pub(crate) standing: Standing,
    pub(crate) activity: Activity,
}

/// Up to 32 live processes, each at a slot of its own. The first process has slot 0. The ready processes are a list;
/// a process that is taken, or that waits, is in no list.
#[derive(Drop)]
pub(crate) struct Table {
    pub(crate) processes: [Process; 32],
    pub(crate) lists: Lists<32, 2>,
    /// Whether the last attempt of the process failed, and nothing else has happened since.
    pub(crate) marked: [bool; 32],
    /// The number of those that are marked.
    pub(crate) marks: usize,
}

/// Lists in which each slot but the first is free.
fn first_lists() -> Lists<32, 2>
    ensures homes { (q : ℕ) → home_of result q ≡ first_home q }
    ensures ready { list_at result 0 ≡ [] }
    ensures free { length (list_at result 1) ≡ 31 }
    ensures sound { IsSound 32 2 result }
{
    let mut lists = Lists::new();
    for slot in 1..SLOTS {
        lists.push_back(FREE, slot);
    }
    lists
}

impl Table {
    /// The first process lives alone, with this activity, and is in no list.
    pub(crate) fn first(activity: Activity) -> Table
        ensures { FirstAlone result activity }
    {
        let process = Process {
            parent: 0,
            standing: Standing::Ready,
            activity,
        };
        Table {
            processes: [process; 32],
            lists: first_lists(),
            marked: [false; 32],
            marks: 0,
        }
    }

    /// The number of live processes.
    pub(crate) fn live(&self) -> u32
        ensures exact { result + length (free_slots self.now) ≡ 32 }
        ensures sound { IsSound 32 2 self.now.lists }
    {
        let free = self.lists.len(FREE);
        32 - free as u32
    }

    /// The number of ready processes.
    pub(crate) fn ready(&self) -> usize
        ensures exact { result ≡ length (ready_slots self.now) }
        ensures bound { result ≤ 32 }
        ensures sound { IsSound 32 2 self.now.lists }
    {
        self.lists.len(READY)
    }

    /// The activity with which the process at this slot goes on: in its critical phase, where it stands at its `when`.
    #[inline(always)]
    pub(crate) fn resume(&self, slot: usize) -> Activity
        requires { slot < 32 }
        ensures { result ≡ resumed (process_at self.now slot) }
    {
        let mut activity = self.processes[slot].activity;
        if let Standing::AtWhen = self.processes[slot].standing {
            activity.held = 1;
        }
        activity
    }

    /// Takes all marks away. Most often there are none, and nothing is written.
    #[inline(always)]
    pub(crate) fn unmark(&mut self)
        requires { self.old.marks ≡ 0 → self.old.marked ≡ no_marks }
        ensures { self.new ≡ unmarked self.old }
    {
        if self.marks > 0 {
            self.marked = [false; 32];
            self.marks = 0;
        }
    }

    /// Takes all marks away, if that is asked.
    #[inline(always)]
    pub(crate) fn unmark_if(&mut self, asked: bool)
        requires { self.old.marks ≡ 0 → self.old.marked ≡ no_marks }
        ensures { self.new ≡ (if asked then unmarked self.old else self.old) }
    {
        if asked {
            self.unmark();
        }
    }

    /// Marks the process.
    pub(crate) fn mark(&mut self, slot: usize)
        requires slot { slot < 32 }
        requires room { self.old.marks < 64 }
        ensures { self.new ≡ marked_with self.old slot }
    {
        if !self.marked[slot] {
            self.marked[slot] = true;
            self.marks += 1;
        }
    }

    /// Puts the slot, which is in no list, at the back of a list, and this process at the slot.
    #[inline(always)]
    fn put(&mut self, list: usize, slot: usize, process: Process)
        requires list { list < 2 }
        requires slot { slot < 32 }
        requires homeless { home_of self.old.lists slot ≡ None }
        ensures { PutsProcess list slot process self.old self.new }
    {
        self.processes[slot] = process;
        self.lists.push_back(list, slot);
    }

    /// Takes the slot out of its list.
    fn withdraw(&mut self, slot: usize)
        requires slot { slot < 32 }
        requires listed { IsSome (home_of self.old.lists slot) }
        ensures { Withdraws slot self.old self.new }
    {
        self.lists.take(slot);
    }

    /// The process stands at its `when`, with this activity, and is the last of the ready ones.
    #[inline(always)]
    fn stand(&mut self, slot: usize, activity: &Activity)
        requires slot { slot < 32 }
        requires homeless { home_of self.old.lists slot ≡ None }
        ensures { PutsProcess 0 slot (at_its_when (process_at self.old slot) activity.now) self.old self.new }
    {
        // Written in place: a process that is put together first is copied.
        let process = &mut self.processes[slot];
        process.standing = Standing::AtWhen;
        process.activity = *activity;
        self.lists.push_back(READY, slot);
    }

    /// The process has arrived at a `when`.
    #[inline(always)]
    pub(crate) fn arrive(&mut self, slot: usize, activity: &Activity)
        requires slot { slot < 32 }
        requires homeless { home_of self.old.lists slot ≡ None }
        requires clear { self.old.marks ≡ 0 → self.old.marked ≡ no_marks }
        ensures { PutsProcess 0 slot (at_its_when (process_at self.old slot) activity.now) (unmarked self.old) self.new }
    {
        self.unmark();
        self.stand(slot, activity);
    }

    /// The process stands at its `when` after an attempt that marks it. Tells whether all that are ready are marked.
    #[inline(always)]
    pub(crate) fn attempt(&mut self, slot: usize, activity: &Activity) -> bool
        requires slot { slot < 32 }
        requires homeless { home_of self.old.lists slot ≡ None }
        requires room { self.old.marks < 64 }
        ensures put { PutsProcess 0 slot (at_its_when (process_at self.old slot) activity.now) (marked_with self.old slot) self.new }
        ensures all { result ≡ (marks_with self.old slot == length (ready_slots self.new)) }
    {
        self.mark(slot);
        self.stand(slot, activity);
        self.marks == self.ready()
    }

    /// The process waits for so many children, with this activity.
    pub(crate) fn wait(&mut self, slot: usize, activity: Activity, children: usize)
        requires { slot < 32 }
        ensures { self.new ≡ with_process self.old slot (waiting_for children (process_at self.old slot) activity) }
    {
        self.processes[slot] = Process {
            standing: Standing::Waiting(children),
            activity,
            ..self.processes[slot]
        };
    }

    /// The process, which is taken, goes on with this activity when it is resumed.
    pub(crate) fn go_on(&mut self, slot: usize, activity: Activity)
        requires { slot < 32 }
        ensures { self.new ≡ with_process self.old slot (going_by (process_at self.old slot) activity) }
    {
        self.processes[slot] = Process {
            standing: Standing::Ready,
            activity,
            ..self.processes[slot]
        };
    }

    /// Takes a free slot, of which there is one.
    fn take_free(&mut self) -> usize
        requires sound { IsSound 32 2 self.old.lists }
        requires some { 0 < length (free_slots self.old) }
        ensures was { home_of self.old.lists result ≡ Some 1 }
        ensures slot { result < 32 }
        ensures taken { Withdraws result self.old self.new }
    {
        self.lists.take_front(FREE)
    }

    /// A child of the process at `parent` begins with this activity, at a free slot, of which there is one. It is the
    /// last of the ready ones.
    pub(crate) fn add(&mut self, parent: usize, activity: Activity)
        requires sound { IsSound 32 2 self.old.lists }
        requires some { 0 < length (free_slots self.old) }
        ensures { Added parent activity self.old self.new }
    {
        let slot = self.take_free();
        let process = Process {
            parent,
            standing: Standing::Ready,
            activity,
        };
        self.put(READY, slot, process);
    }

    /// The process waits for one child less; it is the last of the ready ones where none is left.
    fn notify(&mut self, slot: usize)
        requires slot { slot < 32 }
        requires homeless { is_waiting (process_at self.old slot).standing ≡ true → home_of self.old.lists slot ≡ None }
        ensures { Notifies (process_at self.old slot).standing slot self.old self.new }
    {
        let process = self.processes[slot];
        if let Standing::Waiting(children) = process.standing {
            if children <= 1 {
                let process = Process {
                    standing: Standing::Ready,
                    ..process
                };
                self.put(READY, slot, process);
            } else {
                self.processes[slot].standing = Standing::Waiting(children - 1);
            }
        }
    }

    /// A branch has come to its end: its slot is free, and its parent waits for one child less.
    pub(crate) fn leave(&mut self, slot: usize)
        requires slot { slot < 32 }
        requires homeless { home_of self.old.lists slot ≡ None }
        requires going { is_waiting (process_at self.old slot).standing ≡ false }
        requires parent { (process_at self.old slot).parent < 32 }
        requires waiting { (q : ℕ) → is_waiting (process_at self.old q).standing ≡ true → home_of self.old.lists q ≡ None }
        requires clear { self.old.marks ≡ 0 → self.old.marked ≡ no_marks }
        ensures { Removed slot (unmarked self.old) self.new }
    {
        self.unmark();
        let process = self.processes[slot];
        self.put(FREE, slot, process);
        self.notify(process.parent);
    }

    /// Takes the ready process at this index of the ready list, counted from 0 at the front.
    #[inline(always)]
    pub(crate) fn next(&mut self, at: usize) -> usize
        requires sound { IsSound 32 2 self.old.lists }
        requires at { at < length (ready_slots self.old) }
        ensures was { slice_get (ready_slots self.old) at ≡ Some result }
        ensures slot { result < 32 }
        ensures taken { Withdraws result self.old self.new }
    {
        if at == 0 {
            return self.lists.take_front(READY);
        }
        self.lists.take_at(READY, at)
    }

    /// Whether the process at this slot is ready.
    pub(crate) fn is_ready(&self, slot: usize) -> bool
        requires { slot < 32 }
        ensures { result ≡ is_ready self.now slot }
    {
        self.lists.home(slot) == Some(READY)
    }

    /// What the process at this slot does, and its activity.
    pub(crate) fn process(&self, slot: usize) -> (Standing, Activity)
        requires { slot < 32 }
        ensures standing { result.0 ≡ (process_at self.now slot).standing }
        ensures activity { result.1 ≡ (process_at self.now slot).activity }
    {
        let process = &self.processes[slot];
        (process.standing, process.activity)
    }

    /// Whether a process lives at this slot.
    pub(crate) fn lives(&self, slot: usize) -> bool
        ensures { result ≡ is_live self.now slot }
    {
        slot < SLOTS && self.lists.home(slot) != Some(FREE)
    }

    /// The slot of the ready process at this index of the ready list, counted from 0 at the front.
    pub(crate) fn ready_at(&self, index: usize) -> Option<usize>
        ensures { result ≡ slice_get (ready_slots self.now) index }
    {
        self.lists.nth(READY, index)
    }

    /// The process lives at this slot, which is free or the first one, and is in no list.
    pub(crate) fn admit(&mut self, slot: usize, process: Process)
        requires sound { IsSound 32 2 self.old.lists }
        requires slot { slot < 32 }
        requires absent { home_of self.old.lists slot ≡ first_home slot }
        ensures { Admits slot process self.old self.new }
    {
        if slot == 0 {
            self.processes[slot] = process;
            return;
        }
        self.withdraw(slot);
        self.processes[slot] = process;
    }

    /// The process at this slot, which is in no list, becomes the last of the ready ones.
    pub(crate) fn line_up(&mut self, slot: usize)
        requires slot { slot < 32 }
        requires homeless { home_of self.old.lists slot ≡ None }
        ensures { PutsProcess 0 slot (process_at self.old slot) self.old self.new }
    {
        let process = self.processes[slot];
        self.put(READY, slot, process);
    }
}
