// What is promised beyond the calls' contracts: theorems that no contract needs (specs/Promises), kept by one function's contract, so
// that a tree in which one of them is not proved does not pass.
#![tactic(auto)]

ghost use Rattle.promises.specs.Promises.{Promises};

// Nothing to run: its contract is the page of promises.
pub fn promises() -> bool
    ensures { Promises }
{
    true
}
