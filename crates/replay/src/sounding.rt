// A run of a sounder over the pair of a key.
ghost use Rattle.std.specs.Prelude.{◌≡◌};
ghost use Rattle.calls.specs.Runs.{calls_of, answers_of};
ghost use Rattle.replay.specs.KeyRuns.{key_answers};

use calls::Event;
use keys::Key;
use kinds::Kind;
use sounder::replay;

// Gives the calls of a list to a new sounder over the pair of the key, and writes each answer beside its call.
pub fn run_over<K: Kind>(key: &Key, run: &mut [Event])
    ensures calls { calls_of run.new ≡ calls_of run.old }
    ensures answers { answers_of run.new ≡ key_answers K.Kind key.now (calls_of run.old) }
{
    let _sounder = replay(key.cascade::<K>(), run);
}
