use crate::kernel::KernelName;
use crate::stages::Stages;
use std::marker::Model;

// A key: the kernel, the stages (the first is the lowest), and the number of roots that it was filled for.
// Every key is one that would be accepted.
#[derive(Clone, Copy, PartialEq, Eq, Debug)]
pub struct Key {
    pub(crate) kernel: KernelName,
    // no kind but the number of its roots: a key serves each kind that has as many
    pub(crate) roots: u8,
    pub(crate) stages: Stages,
}

impl Model for Key {
    ghost use Rattle.keys.specs.KernelNames.{number_of, named, named-number_of};
    ghost use Rattle.keys.specs.Plans.{Plan, IsSound, plan};

    ghost Value = { Plan };

    ghost view = { λ k. plan (number_of k.kernel) k.roots k.stages };

    ghost invariant = { λ k. IsSound (plan (number_of k.kernel) k.roots k.stages) };

    ghost inverse = { λ p. record { kernel = named p.kernel; roots = p.roots; stages = p.stages } };

    ghost inverse_ok = { λ k h i. record { kernel = named-number_of k.kernel i; roots = k.roots; stages = k.stages } };
}
