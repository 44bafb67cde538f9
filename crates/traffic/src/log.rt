// A run tells only what its last completed step touched. So it keeps a log of the
// last load or store. Loads and stores write it, and no other instruction does
// anything for it: where each hands on what it touched, a run takes a quarter
// longer.
ghost use Rattle.std.specs.Prelude.{◌≡◌};
ghost use Rattle.traffic.specs.Log.{empty_log, with_access, last_logged};

use super::data::Traffic;

// The step of the last access, counted from 0, and what that touched.
#[derive(Clone, Copy, PartialEq, Eq, Debug)]
pub struct Log {
    pub step: u32,
    pub touched: Traffic,
}

impl Log {
    // The log before the first step.
    pub fn new() -> Log
        ensures { result ≡ empty_log }
    {
        Log {
            step: 0,
            touched: Traffic::NoData,
        }
    }

    // Puts the access of a step into the log.
    pub fn put(&mut self, step: u32, touched: Traffic)
        ensures { self.new ≡ with_access step touched }
    {
        self.step = step;
        self.touched = touched;
    }

    // What the last of `count` steps touched. An access counts if it was that step's.
    pub fn last(&self, count: u32) -> Traffic
        ensures { result ≡ last_logged count self.now }
    {
        if count == 0 {
            return Traffic::NoData;
        }
        if self.step == count - 1 {
            self.touched
        } else {
            Traffic::NoData
        }
    }
}
