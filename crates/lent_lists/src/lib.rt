// The members of a call list's answer as a lent answer has them.
#![tactic(auto)]

ghost use Rattle.std.specs.Prelude.{◌≡◌, ◌+◌, ◌*◌, ◌/◌, ◌≤◌, length, take, drop};
ghost use Rattle.model.specs.Entries.{members_of};
ghost use Rattle.reader.specs.Answers.{member_size, members_at};
ghost use Rattle.lent_lists.specs.Members.{MembersThere, PutMember};

use reader::Span;

// The member at a place of a list, of 53 or 85 bytes, as entry k of a lent answer, which has 85. The place after it.
fn expand_member(list: &[u8], at: usize, members: &mut [u8], k: usize) -> usize
    requires { (at + member_size (drop at list.now) ≤ length list.now) × (k * 85 + 85 ≤ length members.old) }
    ensures { PutMember result members.new list.now at members.old k }
{
    let to = k * 85;
    if list[at + 52] == 1 {
        words::place(members, to, &list[at..at + 85]);
        return at + 85;
    }
    words::place(members, to, &list[at..at + 52]);
    members[to + 52] = 0;
    at + 53
}

// The members of a list as the first entries of a lent answer.
pub fn expand_members(list: &[u8], span: Span, members: &mut [u8])
    requires { MembersThere list.now span × (length list.now / 53 * 85 ≤ length members.old) }
    ensures { (members_of (take (span.count * 85) members.new) ≡ members_at list.now span) × (span.count * 85 ≤ length members.new) × (length members.new ≡ length members.old) }
{
    let mut at = span.start;
    for k in 0..span.count {
        at = expand_member(list, at, members, k);
    }
}
