ghost use Rattle.run_law.specs.Machine.{MachineIsAccepted, MadeMachineIsTransposed};

/// The machine of reverse sweeps leaves the adjoints of an accepted program whose run nothing stops at the active names that are asked
/// by, where reads of names with the choice Shared are apart. It does nothing.
pub fn machine_is_accepted()
    ensures { MachineIsAccepted }
{}

/// So with the choices that are made where nothing is known, without a premise on reads. It does nothing.
pub fn made_machine_is_transposed()
    ensures { MadeMachineIsTransposed }
{}
