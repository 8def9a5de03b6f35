//! When two requests are the same.

ghost use Rattle.std.specs.Prelude.{◌≡◌, ◌↔◌, IsTrue};
ghost use Rattle.acd_desk.specs.Contents.Replies.{same_request};

use acd_terms::Request;

/// The same key, service and members.
#[tactic(auto, unfolding(crate::specs::Contents::Replies::same_request))]
pub fn is_same(a: &Request, b: &Request) -> bool
    ensures value { result ≡ same_request a.now b.now }
    ensures same { IsTrue result ↔ (a.now ≡ b.now) }
{
    *a == *b
}
