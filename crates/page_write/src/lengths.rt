// What the lengths that a writer is lent are refused for, under a plan (document 01, "Replies").
ghost use Rattle.std.specs.Prelude.{◌≡◌};
ghost use Rattle.replies.specs.Replies.{verdict_number};
ghost use Rattle.page_theory.specs.Calls.{write_reply};

use layout_plan::Plan;
use replies::Refusal;

pub fn write_reply(plan: Plan, metadata: usize, data: usize, page: usize) -> Result<(), Refusal>
    ensures { verdict_number result ≡ write_reply plan metadata «data» page }
{
    if page != plan.size as usize {
        return Err(Refusal::PageLength);
    }
    if metadata != plan.metadata as usize {
        return Err(Refusal::BufferLength);
    }
    if data != plan.data as usize {
        return Err(Refusal::BufferLength);
    }
    Ok(())
}
