//! An instruction that was read.
ghost use Rattle.std.specs.Prelude.{◌≡◌, ◌+◌, ◌<◌, [], ◌∷◌, ◌++◌, slice_index, true, false, if◌then◌else◌};
ghost use Rattle.arrayvec.specs.ArrayVec.{array_vec_len};
ghost use Rattle.gx_rows.specs.Table.{row_count};

use crate::Cursor;
use arrayvec::ArrayVec;
use gx_rows::{Row, row_at};
use gx_state::Dest;

/// An instruction: its row's place in the table, the values that it loads, where its results go, the
/// address after it, and the stack pointer that its pops leave.
///
/// While its operands are read, `next` is the address of the next operand's data.
#[derive(Drop)]
pub struct Plan {
    pub(crate) row: usize,
    pub loads: ArrayVec<u32, 8>,
    pub dest: Dest,
    pub second: Dest,
    pub next: u32,
    pub sp: u32,
    /// How many values were popped so far.
    pub(crate) popped: u32,
    /// Whether the destination of a store was read.
    pub(crate) stored: bool,
    pub ghost in_table: { row < row_count },
}

impl Plan {
    ghost use Rattle.gx_rows.specs.Table.{RowFits};
    ghost use Rattle.gx_operands.specs.Plans.{instruction_of, operands_of};

    /// A plan that `decode_into` fills. It stands for no instruction yet.
    pub fn new() -> Plan
        ensures { result.loads.items ≡ [] }
    {
        Plan {
            row: 0,
            loads: ArrayVec::new(),
            dest: Dest::Nowhere,
            second: Dest::Nowhere,
            next: 0,
            sp: 0,
            popped: 0,
            stored: false,
        }
    }

    /// Where the reading of its operands stands.
    #[inline(always)]
    pub(crate) fn cursor(&self) -> Cursor
        ensures { result ≡ (operands_of self.now).cursor }
    {
        Cursor {
            at: self.next,
            popped: self.popped,
        }
    }

    /// Begins the reading of its operands, whose data stand from an address on.
    #[inline(always)]
    pub(crate) fn begin(&mut self, at: u32)
        ensures value { operands_of self.new ≡ record {
          loads = [];
          dest = Dest.Nowhere;
          second = Dest.Nowhere;
          stored = false;
          cursor = record { at = at; popped = 0 };
        } }
        ensures none { self.new.loads.items ≡ [] }
        ensures row { self.new.row ≡ self.old.row }
    {
        self.loads = ArrayVec::new();
        self.dest = Dest::Nowhere;
        self.second = Dest::Nowhere;
        self.stored = false;
        self.move_to(Cursor { at, popped: 0 });
    }

    /// Goes on with the reading of its operands at a cursor.
    #[inline(always)]
    fn move_to(&mut self, cursor: Cursor)
        ensures { self.new ≡ record self.old { next = cursor.at; popped = cursor.popped } }
    {
        self.next = cursor.at;
        self.popped = cursor.popped;
    }

    /// Takes a value that is loaded.
    #[inline(always)]
    pub(crate) fn take_load(&mut self, v: u32, cursor: Cursor)
        requires { array_vec_len self.old.loads < 8 }
        ensures value { operands_of self.new ≡ record (operands_of self.old) {
          loads = (operands_of self.old).loads ++ v ∷ [];
          cursor = cursor;
        } }
        ensures room { array_vec_len self.new.loads ≡ array_vec_len self.old.loads + 1 }
        ensures row { self.new.row ≡ self.old.row }
    {
        self.loads.push(v);
        self.move_to(cursor);
    }

    /// Takes the destination of a store.
    #[inline(always)]
    pub(crate) fn take_destination(&mut self, dest: Dest, cursor: Cursor)
        ensures value { operands_of self.new ≡ (let o = operands_of self.old in
            if o.stored then record o { second = dest; cursor = cursor }
            else record o { dest = dest; stored = true; cursor = cursor }) }
        ensures room { array_vec_len self.new.loads ≡ array_vec_len self.old.loads }
        ensures row { self.new.row ≡ self.old.row }
    {
        if self.stored {
            self.second = dest;
        } else {
            self.dest = dest;
            self.stored = true;
        }
        self.move_to(cursor);
    }

    /// Its row of the table.
    #[inline(always)]
    pub fn row(&self) -> &'static Row
        ensures value { result.now ≡ (instruction_of self.now).row }
        ensures fits { RowFits result.now }
    {
        row_at(self.row)
    }

    /// A value that the instruction loads, 0 where it loads fewer.
    #[inline(always)]
    pub fn load(&self, i: usize) -> u32
        ensures { result ≡ slice_index (instruction_of self.now).loads i }
    {
        self.loads.get(i).copied().unwrap_or(0)
    }
}
