// What a call for C returns. Only the planner's own crates call this.
ghost use Rattle.std.specs.Prelude.{◌≡◌};
ghost use Rattle.store.specs.Codes.{code_of};

use tables::Refusal;

// 0, or the number of the refusal.
pub fn code(answer: Result<(), Refusal>) -> u32
    ensures { result ≡ code_of answer }
{
    match answer {
        Ok(()) => 0,
        Err(refusal) => u32::from(refusal),
    }
}
