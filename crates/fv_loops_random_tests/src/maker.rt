// Codes that are made at random.

ghost use Rattle.std.specs.Prelude.{◌<◌};

use fv_loopcode::Step;
use fv_num::Op;
use rand_core::Rng;
use rand_pcg::Pcg32;
use std::alloc::{AllocError, Global};

/// How many lanes a code may name.
pub(crate) const LANES: u64 = 6;

/// How many tables, and how many lists of cells.
pub(crate) const LISTS: u64 = 3;

static OPERATIONS: [Op; 21] = [
    Op::Add,
    Op::Sub,
    Op::Mul,
    Op::Div,
    Op::Rem,
    Op::And,
    Op::Or,
    Op::Xor,
    Op::Shl,
    Op::Shr,
    Op::Lt,
    Op::Le,
    Op::Gt,
    Op::Ge,
    Op::Eq,
    Op::Ne,
    Op::Min,
    Op::Max,
    Op::Abs,
    Op::Select2,
    Op::Select3,
];

// Which operand of an operation is the value of the one before it.
#[derive(Clone, Copy)]
enum Side {
    First,
    Second,
    Neither,
}

// The operations of cycles that programs have often.
static CHAINS: [&[(Op, Side)]; 20] = [
    &[(Op::Mul, Side::First), (Op::Add, Side::First)],
    &[(Op::Shr, Side::First), (Op::Add, Side::First)],
    &[(Op::Sub, Side::First), (Op::Max, Side::First)],
    &[(Op::Add, Side::First), (Op::Min, Side::First)],
    &[(Op::Add, Side::First), (Op::And, Side::First)],
    &[(Op::Add, Side::First), (Op::Rem, Side::First)],
    &[
        (Op::Shr, Side::First),
        (Op::Sub, Side::Second),
        (Op::Add, Side::First),
    ],
    &[
        (Op::Shr, Side::First),
        (Op::Sub, Side::Second),
        (Op::Max, Side::First),
    ],
    &[
        (Op::Sub, Side::Second),
        (Op::Shr, Side::First),
        (Op::Add, Side::Second),
    ],
    &[
        (Op::Sub, Side::First),
        (Op::Max, Side::Second),
        (Op::Select2, Side::Second),
    ],
    &[
        (Op::Mul, Side::First),
        (Op::Div, Side::First),
        (Op::Add, Side::First),
    ],
    &[
        (Op::Mul, Side::First),
        (Op::Shr, Side::First),
        (Op::Add, Side::First),
    ],
    &[
        (Op::Mul, Side::First),
        (Op::Add, Side::First),
        (Op::Shr, Side::First),
    ],
    &[
        (Op::Sub, Side::Second),
        (Op::Mul, Side::First),
        (Op::Shr, Side::First),
        (Op::Add, Side::Second),
    ],
    &[
        (Op::Mul, Side::First),
        (Op::Mul, Side::Neither),
        (Op::Add, Side::Second),
        (Op::Div, Side::First),
        (Op::Add, Side::First),
    ],
    &[
        (Op::Mul, Side::First),
        (Op::Mul, Side::Neither),
        (Op::Add, Side::Second),
        (Op::Shr, Side::First),
        (Op::Add, Side::First),
    ],
    &[
        (Op::Mul, Side::First),
        (Op::Div, Side::First),
        (Op::Mul, Side::Neither),
        (Op::Div, Side::First),
        (Op::Sub, Side::Second),
        (Op::Add, Side::First),
    ],
    &[
        (Op::Mul, Side::First),
        (Op::Shr, Side::First),
        (Op::Mul, Side::Neither),
        (Op::Shr, Side::First),
        (Op::Sub, Side::Second),
        (Op::Add, Side::First),
    ],
    &[
        (Op::Mul, Side::First),
        (Op::Mul, Side::Neither),
        (Op::Add, Side::Second),
        (Op::Shr, Side::First),
        (Op::Sub, Side::Second),
        (Op::Add, Side::First),
    ],
    &[(Op::Xor, Side::First)],
];

// Numbers by which loads go back: less than a strip of 32, 64 or 128 samples, as many, and more.
static BACKS: [i32; 20] = [
    1, 1, 1, 1, 2, 2, 3, 5, 8, 9, 31, 32, 33, 40, 63, 64, 65, 100, 127, 128,
];

/// A code that is being made.
#[derive(Drop)]
pub(crate) struct Maker {
    /// Where numbers come from.
    pub(crate) rng: Pcg32,
    /// The steps so far.
    pub(crate) steps: Vec<Step>,
    /// How many lanes are the code's own, the first ones.
    pub(crate) own: u64,
    /// How many of them have been appended, the first ones.
    pub(crate) appended: u64,
    /// How many lists of cells have been written, the first ones.
    pub(crate) written: u64,
}

/// A number below this one, or 0 where there is none.
pub(crate) fn below(rng: &mut Pcg32, count: u64) -> u64 {
    u64::from(rng.next_u32()) % count.max(1)
}

/// Any number, often a small one.
pub(crate) fn number(rng: &mut Pcg32) -> i32 {
    let low = (rng.next_u32() % 65536) as i32;
    let high = (rng.next_u32() % 65536) as i32;
    match rng.next_u32() % 4 {
        0 => low % 9 - 4,
        1 => low,
        2 => low - 32768,
        _ => high.wrapping_mul(65536).wrapping_add(low),
    }
}

impl Maker {
    // The index of an earlier step: of the last one in half of the cases.
    fn earlier(&mut self) -> u64 {
        let count = self.steps.len() as u64;
        if self.rng.next_u32() % 2 == 0 {
            count.saturating_sub(1)
        } else {
            below(&mut self.rng, count)
        }
    }

    // Four of them.
    fn four(&mut self) -> [u64; 4] {
        let first = self.earlier();
        let second = self.earlier();
        let third = self.earlier();
        let fourth = self.earlier();
        [first, second, third, fourth]
    }

    // Adds a step, and returns its index.
    fn push(&mut self, step: Step) -> Result<u64, AllocError> {
        let place = self.steps.len() as u64;
        self.steps.push(step)?;
        Ok(place)
    }

    // Adds the steps that each code begins with: numbers, held values and inputs. The first two go back one sample at least.
    fn begin(&mut self) -> Result<(), AllocError> {
        let back = BACKS[(self.rng.next_u32() % 20) as usize];
        let (small, any) = (number(&mut self.rng) % 8, number(&mut self.rng));
        self.push(Step::Number(1))?;
        self.push(Step::Number(back))?;
        self.push(Step::Number(small))?;
        self.push(Step::Number(any))?;
        self.push(Step::Held(0))?;
        self.push(Step::Held(1))?;
        self.push(Step::Input(0))?;
        self.push(Step::Input(1))?;
        Ok(())
    }

    // Adds an operation on earlier steps.
    fn point(&mut self) -> Result<u64, AllocError> {
        let op = OPERATIONS[(self.rng.next_u32() % 21) as usize];
        let args = self.four();
        self.push(Step::Point { op, args })
    }

    // The step that says how far back a lane is loaded: one that says one sample at least, where the lane is yet to be appended.
    fn back_of(&mut self, lane: u64) -> u64 {
        if lane < self.appended || lane >= self.own {
            self.earlier()
        } else {
            below(&mut self.rng, 2)
        }
    }

    // Adds a load of this lane.
    fn load(&mut self, lane: u64) -> Result<u64, AllocError> {
        let back = self.back_of(lane);
        let max = if self.rng.next_u32() % 2 == 0 {
            history(lane)
        } else {
            below(&mut self.rng, history(lane)).saturating_add(1)
        };
        self.push(Step::Load { lane, back, max })
    }

    // Adds an append to the next lane of its own.
    fn append(&mut self, value: u64) -> Result<(), AllocError> {
        let lane = self.appended;
        if lane < self.own {
            self.push(Step::Append { lane, value })?;
            self.appended = lane + 1;
        }
        Ok(())
    }

    // Adds a write of the next cells, or an operation where all are written.
    fn write(&mut self) -> Result<u64, AllocError> {
        let cells = self.written;
        if cells >= LISTS {
            return self.point();
        }
        self.written = cells + 1;
        let [w, x, r, _other] = self.four();
        self.push(Step::Write {
            cells,
            args: [w, x, r],
        })
    }

    // The operands of an operation in a chain: the last value, and others.
    fn linked(&mut self, side: Side, last: u64, loaded: u64) -> [u64; 4] {
        let other = if self.rng.next_u32() % 2 == 0 {
            loaded
        } else {
            below(&mut self.rng, 8)
        };
        let third = below(&mut self.rng, 8);
        match side {
            Side::First => [last, other, third, loaded],
            Side::Second => [other, last, third, loaded],
            Side::Neither => [loaded, third, other, other],
        }
    }

    // Adds a cycle: loads of the next lane of its own, a chain of operations, now and then a table or cells among them, and the append.
    fn cycle(&mut self) -> Result<(), AllocError> {
        let lane = self.appended;
        if lane >= self.own {
            self.point()?;
            return Ok(());
        }
        let _other = self.load(lane)?;
        let mut last = self.load(lane)?;
        let loaded = last;
        let chain = CHAINS[(self.rng.next_u32() % 20) as usize];
        for (op, side) in chain {
            let args = self.linked(*side, last, loaded);
            last = self.push(Step::Point { op: *op, args })?;
        }
        match self.rng.next_u32() % 8 {
            0 => last = self.push(Step::Read {
                table: 0,
                arg: last,
            })?,
            1 => last = self.write()?,
            _ => {}
        }
        self.append(last)
    }

    // Adds a step, or a cycle.
    fn any(&mut self) -> Result<(), AllocError> {
        match self.rng.next_u32() % 16 {
            0 | 1 | 2 => {
                let lane = below(&mut self.rng, LANES);
                self.load(lane)?;
            }
            3 => {
                let table = below(&mut self.rng, LISTS);
                let arg = self.earlier();
                self.push(Step::Read { table, arg })?;
            }
            4 => {
                self.write()?;
            }
            5 => {
                let value = self.earlier();
                self.append(value)?;
            }
            6 | 7 => self.cycle()?,
            8 => {
                let any = number(&mut self.rng);
                self.push(Step::Number(any))?;
            }
            _ => {
                self.point()?;
            }
        }
        Ok(())
    }

    // Adds this many steps or cycles, and what is to be appended yet.
    fn fill(&mut self, count: u64) -> Result<(), AllocError> {
        self.begin()?;
        for _step in 0..count {
            self.any()?;
        }
        for _lane in self.appended..self.own {
            let value = self.earlier();
            self.append(value)?;
        }
        Ok(())
    }
}

/// How many samples the history of a lane has.
pub(crate) fn history(lane: u64) -> u64
    ensures { (0 < result) × (result < 200) }
{
    match lane {
        0 => 1,
        1 => 2,
        2 => 7,
        3 => 40,
        4 => 100,
        _ => 150,
    }
}

/// Makes a code of `count` steps or cycles.
pub(crate) fn made(alloc: Global, seed: u64, count: u64) -> Result<Maker, AllocError> {
    let mut rng = Pcg32::new(seed, 54);
    let own = below(&mut rng, LANES - 1).saturating_add(1);
    let mut maker = Maker {
        rng,
        steps: Vec::new(alloc),
        own,
        appended: 0,
        written: 0,
    };
    maker.fill(count)?;
    Ok(maker)
}
