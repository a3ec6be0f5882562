ghost use Rattle.std.specs.Prelude.{◌≡◌};
ghost use Rattle.pairs.specs.Pairs.{codes_of};
ghost use Rattle.calls.specs.Runs.{new, run_of, calls_of, answers_of, answers, RunLaws};
ghost use Rattle.sounder.specs.Standing.{Stands};
ghost use Rattle.sounder.specs.States.{state_of, Does};

use crate::state::Sounder;
use calls::Event;
use pairs::Pair;

// Gives one call to a sounder, and writes the answer beside it.
fn give<P: Pair>(sounder: &mut Sounder<P>, event: &mut Event)
    ensures call { event.new.call ≡ event.old.call }
    ensures answer { Does P.Sample.Kind P.Pair event.old.call sounder.old sounder.new event.new.answer }
{
    event.answer = sounder.answer(event.call);
}

// Gives the calls of a list, in order, to a new sounder over `pair`, writes each answer beside its call, and gives the sounder back.
pub fn replay<P: Pair>(pair: P, run: &mut [Event]) -> Sounder<P>
    ensures calls { calls_of run.new ≡ calls_of run.old }
    ensures answers { answers_of run.new ≡ answers P.Sample.Kind (codes_of P.Pair pair) new (calls_of run.old) }
    ensures laws { RunLaws P.Sample.Kind (codes_of P.Pair pair) (run_of run.new) }
    ensures state { Stands P.Sample.Kind (codes_of P.Pair pair) (P.Pair.pending pair) (state_of P.Sample.Kind P.Pair result) (run_of run.new) }
{
    let mut sounder = Sounder::new(pair);
    for event in run.iter_mut() {
        give(&mut sounder, event);
    }
    sounder
}
