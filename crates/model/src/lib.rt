// The rules for one mode: its cores, its demand and its cost; and the limits that sizes follow from.
#![tactic(auto)]

ghost use Rattle.std.specs.Prelude.{◌≡◌, ◌≤◌};
ghost use Rattle.model.specs.Rules.{meets, cores_said, demand_of, cost_of};
ghost use Rattle.model.specs.inner.Said.{said};

// A table has at most so many tasks and cores, and a task so many modes.
pub const MOST_TASKS: usize = 32;

pub const MOST_CORES: usize = 64;

pub const MOST_MODES: usize = 16;

// The cells of the widest row, columns 0 up to the cores, and of the largest workspace.
pub const WIDEST: usize = MOST_CORES + 1;

pub const MOST_CELLS: usize = (MOST_TASKS + 1) * WIDEST;

// A mode's figures, in ticks: the work of one job, its longest chain of work, and how often a job comes round.
#[derive(Clone, Copy, PartialEq, Eq)]
pub struct Figures {
    pub work: u32,
    pub span: u32,
    pub period: u32,
}

impl Figures {
    // Whether the mode can meet its period.
    pub fn meets_period(self) -> bool
        ensures { result ≡ meets self.work self.span self.period }
    {
        let Figures { work, span, period } = self;
        ((work == span) & (span <= period)) | ((span < period) & (span < work))
    }

    // The mode's cores, for any three numbers; none if it can't meet its period.
    pub fn cores(self) -> Option<u32>
        ensures { said result ≡ cores_said self.work self.span self.period }
    {
        if !self.meets_period() {
            return None;
        }
        let Figures { work, span, period } = self;
        if work == span {
            return Some(1);
        }
        Some((work - span).div_ceil(period - span))
    }

    // The work done in one common period. Over a period of 0 no job comes round, and the demand is 0.
    pub fn demand(self, common: u32) -> u64
        ensures { result ≡ demand_of self.work self.period common }
    {
        let jobs = common.checked_div(self.period).unwrap_or(0);
        u64::from(self.work) * u64::from(jobs)
    }
}

// The cost of a mode, by its demand and that of mode 0, neither of them above 64 times the largest common period.
pub fn cost(elasticity: u8, nominal: u64, demand: u64) -> u64
    requires { (nominal ≤ 6400000) × (demand ≤ 6400000) }
    ensures { result ≡ cost_of elasticity nominal demand }
{
    let weight = 2520u64.checked_div(u64::from(elasticity)).unwrap_or(0);
    let apart = nominal.abs_diff(demand);
    weight * (apart * apart)
}
