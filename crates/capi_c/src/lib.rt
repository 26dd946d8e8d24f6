// The two calls for C, as include/fuselinda.h declares them. Each calls capi's function and has its clauses. They stand twice since today a crate is a library or a static library, and only a static library exports for C.
#![tactic(auto)]

ghost use Rattle.std.specs.Prelude.{◌≡◌};
ghost use Rattle.calculus.specs.Calls.{check, check_word};
ghost use Rattle.capi.specs.Contract.{RunContract, Determined, CheckContract};

// Runs a problem: lists its solved forms, and traces its steps.
#[unsafe(no_mangle)]
pub extern "C" fn fuselinda_run(
    problem: &[u8],
    budget: u64,
    forms: &mut [u8],
    trace: &mut [u8],
) -> u64
    ensures { Determined problem.now budget forms.old trace.old result forms.new trace.new × RunContract problem.now budget forms.old trace.old result forms.new trace.new }
{
    capi::fuselinda_run(problem, budget, forms, trace)
}

// Checks an assignment that was worked by hand.
#[unsafe(no_mangle)]
pub extern "C" fn fuselinda_check(problem: &[u8], assignment: &[u8]) -> u64
    ensures { (result ≡ check_word (check problem.now assignment.now)) × CheckContract problem.now assignment.now result }
{
    capi::fuselinda_check(problem, assignment)
}
