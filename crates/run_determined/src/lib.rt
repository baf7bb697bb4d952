// That a run in an order is determined by the order and its clocks' readings, but for what the rules leave open.
#![tactic(auto)]

ghost use Rattle.run_determined.specs.Orders.{OrdersAreOne, UnfailedLeaveTold};
ghost use Rattle.run_determined.specs.Reports.{ReportsAreOne, StoresBeginAlike, UnaskedNeverFail, UnrisenNeverFail};

use vos_store::store::Store;

/// Says that a run in an order is determined by its order and by the readings of its clocks, but for what the rules
/// leave open. Two runs in one order of one script, from beginnings that are the same but for free blocks, come to
/// worlds that are the same but for free blocks, and read their clocks as often, where two things hold as far as both
/// go: each target's clock gave the same, where epochs were issued; and turn by turn they left the same open. That
/// is what a turn tells of later reads that it shows and of want of space; and if it was cut, or was an opening that
/// failed, where, and whether its target was given up then. Where in neither run a turn was cut or an opening failed, only
/// what turns tell has to be the same.
pub fn laws_of_repeated_runs()
    ensures orders { OrdersAreOne }
    ensures unfailed { UnfailedLeaveTold }
{}

/// Says the same of the runs that reports follow: two reports of one script and one job, whatever blocks are free,
/// tell the same lines, and targets keep the same in the end, where the runs begin with targets that are the same but
/// for free blocks. Where in such a run no more turns of a target are cut, and no more of its openings fail, than the
/// script has stop lines for it, nothing is cut or fails in a run of a script that has none.
pub fn laws_of_repeated_reports()
    ensures lines { ReportsAreOne }
    ensures unasked { UnaskedNeverFail }
{}

/// Says of runs over stores how that comes about. They begin with such targets where the stores are as many, and at
/// each place tell the same of what they keep and of the floor of their last opening. No turn is cut and no opening fails
/// where no count of a store rises.
pub fn laws_of_repeated_stores<S: Store, T: Store>()
    ensures begin { StoresBeginAlike S.durable S.state S.may T.durable T.state T.may }
    ensures unrisen { UnrisenNeverFail S.durable S.state S.may }
{}
