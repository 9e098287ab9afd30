ghost use Rattle.ocm_pump.specs.Laws.{OneAnswer};
ghost use Rattle.ocm_pump.specs.Machines.{DeliveriesAreRuns, MachineDelivers};

/// What a delivery answers is fixed by its exchanges, but for want of memory: so each fault comes exactly where its
/// exchanges are those of that fault.
pub fn delivery_has_one_answer()
    ensures { OneAnswer }
{}

/// A machine that is done made exactly the exchanges of a delivery, and its answer is that of these exchanges.
pub fn machine_delivers()
    ensures { MachineDelivers }
{}

/// Each delivery is made by some run of the machine: by what came back in its exchanges.
pub fn deliveries_are_runs()
    ensures { DeliveriesAreRuns }
{}
