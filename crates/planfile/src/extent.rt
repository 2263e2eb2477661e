// How many bytes a plan file has, told by its first bytes.
ghost use Rattle.std.specs.Prelude.{◌≡◌};
ghost use Rattle.planfields.specs.Layout.{file_bytes};

use planfields::layout::Layout;

// How many bytes the plan file is to have, told by its first five: these and as many more as the length
// field says, but at most the largest file. If there are fewer than five, as many as there are.
#[tactic(auto, unfolding(planfields::specs::Layout::file_bytes))]
pub fn file_bytes(head: &[u8]) -> usize
    ensures { result ≡ file_bytes head.now }
{
    if head.len() < Layout::OPENING_BYTES {
        return head.len();
    }
    let said = u32::from_be_bytes([head[1], head[2], head[3], head[4]]) as usize;
    (Layout::OPENING_BYTES + said).min(Layout::LARGEST_FILE)
}
