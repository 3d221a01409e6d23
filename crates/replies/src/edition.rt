// The editions (document 02, E13).
ghost use Rattle.std.specs.Prelude.{◌≡◌};
ghost use Rattle.replies.specs.Edition.{offered, highest};

// Whether there is such an edition.
#[tactic(auto, unfolding(crate::specs::Edition::offered))]
pub fn offered(edition: u64) -> bool
    ensures { result ≡ offered edition }
{
    if edition == 1 {
        return true;
    }
    edition == 2
}

// The highest level field of an edition.
#[tactic(auto, unfolding(crate::specs::Edition::highest))]
pub fn highest(edition: u64) -> u64
    ensures { result ≡ highest edition }
{
    if edition == 1 {
        return 20;
    }
    31
}
