//! The scheduler by itself: random schedules, compared with a model that keeps plain lists.
use crate::numbers::Numbers;
use relay_schedule::{Credit, Debt, HEAVY_TURN, ROUND_CREDIT, ReadyQueue};
use std::alloc::{AllocGlobal, Global};

/// The number of schedules, of the steps of each, and of its keys.
const SCHEDULES: u64 = 1_000;

const STEPS: u64 = 40;

const KEYS: u64 = 5;

/// One line as two lists, each in order: the keys that the pass has still to visit, and the others.
#[derive(Drop)]
struct Line {
    waiting: Vec<usize>,
    others: Vec<usize>,
}

impl Line {
    fn new(alloc: Global) -> Line {
        Line {
            waiting: Vec::new(alloc),
            others: Vec::new(alloc),
        }
    }

    fn contains(&self, key: usize) -> bool {
        self.waiting.contains(&key) || self.others.contains(&key)
    }

    fn pop(&mut self) -> Option<usize> {
        if self.waiting.is_empty() {
            None
        } else {
            Some(self.waiting.remove(0))
        }
    }

    fn begin_pass(&mut self) -> Option<()> {
        for key in self.others.iter() {
            self.waiting.push(*key).ok()?;
        }
        self.others.clear();
        Some(())
    }
}

/// The three lines.
#[derive(Drop)]
struct Model {
    credited: Line,
    light: Line,
    heavy: Line,
}

/// The line in which a connection stands: `None` if it has credit.
type Standing = Option<Debt>;

impl Model {
    /// Puts a key that stands in no line behind all others, or behind those of the pass alone.
    fn put(&mut self, key: usize, standing: Standing, is_skipped: bool) -> Option<()> {
        let stands = self.credited.contains(key)
            || self.light.contains(key)
            || self.heavy.contains(key);
        if stands {
            return Some(());
        }
        let line = self.line(standing);
        if is_skipped {
            line.waiting.push(key).ok()
        } else {
            line.others.push(key).ok()
        }
    }

    fn line(&mut self, standing: Standing) -> &mut Line {
        match standing {
            None => &mut self.credited,
            Some(Debt::Light) => &mut self.light,
            Some(Debt::Heavy) => &mut self.heavy,
        }
    }
}

/// A queue, and its model.
#[derive(Drop)]
struct Pair {
    queue: ReadyQueue,
    model: Model,
}

impl Pair {
    fn new(alloc: Global) -> Option<Pair> {
        let mut queue = ReadyQueue::new(alloc);
        queue.admit(KEYS as usize).ok()?;
        Some(Pair {
            queue,
            model: Model {
                credited: Line::new(alloc),
                light: Line::new(alloc),
                heavy: Line::new(alloc),
            },
        })
    }

    /// A step, as the numbers have it. Returns whether both came to the same.
    fn step(&mut self, numbers: &mut Numbers) -> Option<bool> {
        let standing = match numbers.below(3) {
            0 => None,
            1 => Some(Debt::Light),
            _ => Some(Debt::Heavy),
        };
        match numbers.below(6) {
            0 | 1 => return Some(self.pop(standing)),
            2 => self.begin_pass(standing)?,
            3 => self.put(numbers.below(KEYS) as usize, standing, true)?,
            _ => self.put(numbers.below(KEYS) as usize, standing, false)?,
        }
        Some(true)
    }

    fn put(&mut self, key: usize, standing: Standing, is_skipped: bool) -> Option<()> {
        let credit = credit_of(standing, self.queue.round());
        if is_skipped {
            self.queue.skip(key, credit);
        } else {
            self.queue.push(key, credit);
        }
        self.model.put(key, standing, is_skipped)
    }

    /// Begins a pass of those with credit, or of all who owe.
    fn begin_pass(&mut self, standing: Standing) -> Option<()> {
        if standing.is_none() {
            self.queue.begin_credited_pass();
            return self.model.credited.begin_pass();
        }
        self.queue.begin_owing_pass();
        self.model.light.begin_pass()?;
        self.model.heavy.begin_pass()
    }

    fn pop(&mut self, standing: Standing) -> bool {
        let popped = match standing {
            None => self.queue.pop_credited(),
            Some(debt) => self.queue.pop_owing(debt),
        };
        popped == self.model.line(standing).pop()
    }
}

/// The credit of a connection that stands there.
fn credit_of(standing: Standing, round: u64) -> Credit {
    let mut credit = Credit::fresh(round);
    match standing {
        None => credit.charge(ROUND_CREDIT - 1),
        Some(Debt::Light) => {
            let dearest = HEAVY_TURN - 1;
            for _ in 0..ROUND_CREDIT.div_ceil(dearest) {
                credit.charge(dearest);
            }
        }
        Some(Debt::Heavy) => credit.charge(ROUND_CREDIT.max(HEAVY_TURN)),
    }
    credit
}

fn schedule(alloc: Global, seed: u64) -> Option<bool> {
    let mut numbers = Numbers { state: seed };
    let mut pair = Pair::new(alloc)?;
    for _ in 0..STEPS {
        if !pair.step(&mut numbers)? {
            return Some(false);
        }
    }
    Some(true)
}

#[test]
fn a_queue_serves_in_order(rt: HostRuntime) {
    for seed in 0..SCHEDULES {
        let same = schedule(rt.alloc(), seed).expect(&rt, "memory");
        assert!(rt; same);
    }
}
