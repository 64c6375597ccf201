// How a statement and a run come out, and what a host is answered.

#![tactic(auto)]

ghost use Rattle.std.specs.Prelude.{◌≡◌, ◌<◌, ℕ};
ghost use Rattle.rules.specs.Answers.{answer};
ghost use Rattle.run_endings.specs.Ending.{concluded, asserted_true, after_turn, after_statement, ended_answer};

use rules::{Answer, Progress, Stop, Test};

// Why and at which statement a run stopped, and the fuel left.
#[derive(Clone, Copy, Debug, PartialEq, Eq)]
pub struct Stopped {
    pub stop: Stop,
    pub statement: u32,
    pub fuel: u32,
}

// How a statement comes out: with the fuel left, where it finished.
pub type Ended = Result<u32, Stopped>;

// A turn of a while takes a unit of fuel.
pub fn take_fuel(progress: &mut Progress)
    requires { 0 < progress.old.fuel }
    ensures { progress.new ≡ after_turn progress.old }
{
    progress.fuel -= 1;
}

// Statement n comes out so: a stop stops the run there.
pub fn stop_at<E>(progress: &mut Progress, outcome: Result<(), E>, n: u32) -> Result<(), E>
    ensures outcome { result ≡ «outcome» }
    ensures progress { progress.new ≡ after_statement progress.old «outcome» n }
{
    if outcome.is_err() {
        progress.statement = n;
    }
    outcome
}

// How statement n comes out with this fuel.
pub fn conclude(outcome: Result<(), Stop>, n: u32, fuel: u32) -> Ended
    ensures { result ≡ concluded «outcome» n fuel }
{
    match outcome {
        Ok(()) => Ok(fuel),
        Err(stop) => Err(Stopped {
            stop,
            statement: n,
            fuel,
        }),
    }
}

// "33 assertion false".
pub fn assert_true(t: Test) -> Result<(), Stop>
    ensures { result ≡ asserted_true t }
{
    if t? {
        Ok(())
    } else {
        Err(Stop::FalseAssertion)
    }
}

// A refusal, by its rule or by the number of one.
pub fn refuse<R: Into<u32>>(rule: R, n: u32) -> Answer
    ensures { (number : ℕ) × R.converts rule number × (result ≡ answer number n 0 0) }
{
    Answer {
        number: rule.into(),
        record: n,
        fuel: 0,
        free_cells: 0,
    }
}

// The answer of a run: number and statement are 0 where it finished.
pub fn answer_of(ended: Ended, free_cells: u32) -> Answer
    ensures { result ≡ ended_answer ended free_cells }
{
    match ended {
        Ok(fuel) => Answer {
            number: 0,
            record: 0,
            fuel,
            free_cells,
        },
        Err(stopped) => Answer {
            number: stopped.stop.into(),
            record: stopped.statement,
            fuel: stopped.fuel,
            free_cells,
        },
    }
}
