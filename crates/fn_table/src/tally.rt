// What a pass keeps of itself in plain fields.
ghost use Rattle.std.specs.Prelude.{◌≡◌, ◌*◌, ◌<◌, true, false, length, slice_index, slice_set, replicate, IfOk};

use fn_core::NoMemory;
use fn_layout::Shape;
use std::alloc::Global;

/// What is left of the pass's allowance, whether it has a call on its way through aggregators, the number among its rows of a kind and level of the row that it pointed to last, and the ends of its own rows, numbered as those of pass 0.
#[derive(Drop)]
pub struct Tally {
    pub left: u64,
    pub calling: bool,
    pub pointed: u32,
    pub ends: Vec<u64>,
}

/// A pass that has taken no step.
pub fn untouched(alloc: Global, shape: Shape, left: u64) -> Result<Tally, NoMemory>
    ensures fields { IfOk result (λ t. (t.left ≡ left) × (t.calling ≡ false) × (t.pointed ≡ 0)) }
    ensures ends { IfOk result (λ t. t.ends.items ≡ replicate (2 * shape.levels * shape.rows) 0) }
{
    let rows = 2 * shape.levels() * shape.rows();
    Ok(Tally {
        left,
        calling: false,
        pointed: 0,
        ends: vec![in alloc; 0; rows as usize]?,
    })
}

impl Tally {
    /// The end of one of the pass's rows.
    pub fn row_end(&self, place: u32) -> u64
        requires { place < length self.now.ends.items }
        ensures { result ≡ slice_index self.now.ends.items place }
    {
        self.ends[place as usize]
    }

    /// Keeps the end of one of the pass's rows.
    pub fn publish(&mut self, place: u32, end: u64)
        requires { place < length self.old.ends.items }
        ensures left { self.new.left ≡ self.old.left }
        ensures calling { self.new.calling ≡ self.old.calling }
        ensures pointed { self.new.pointed ≡ self.old.pointed }
        ensures ends { self.new.ends.items ≡ slice_set self.old.ends.items place end }
    {
        self.ends[place as usize] = end;
    }

    /// What an exchange that wins takes from the allowance: its amount, where the pass has no call on its way.
    pub fn spent_by_exchange(&self, amount: u64) -> u64
        ensures direct { self.now.calling ≡ false → result ≡ amount }
        ensures batch { self.now.calling ≡ true → result ≡ 0 }
    {
        if self.calling { 0 } else { amount }
    }
}
