//! Replies in the order of the posts.

ghost use Rattle.std.specs.Prelude.{◌≡◌, ℕ, ◌<◌, ◌≤◌, [], false, map, length, slice_index_or, vec_capacity, MatchOption};
ghost use Rattle.std.specs.List.{All, sum_by};
ghost use Rattle.std.specs.List.Sorted.{IsPermutation};
ghost use Rattle.td_posts.specs.declared.name.PostName.{PostName};
ghost use Rattle.td_posts.specs.declared.mail.Mail.{Mail};
ghost use Rattle.td_posts.specs.declared.reply.Reply.{Reply};
ghost use Rattle.td_posts.specs.Posts.{same_name, reply_name};

use std::cmp::Ordering;
use td_posts::mail::Mail;
use td_posts::name::PostName;
use td_posts::reply::Reply;

/// Whether a reply has this name.
fn has_name(reply: &Reply, name: PostName) -> bool
    ensures { result ≡ same_name (reply_name reply.now) name }
{
    reply.guest == name.guest && reply.number == name.number
}

/// The place of a reply of a name: the last, if it has this name, and else the first that has.
fn place_of(replies: &[Reply], name: PostName) -> Option<usize>
    ensures { MatchOption result
        (All (λ r. same_name (reply_name r) name ≡ false) replies.now)
        (λ i. (i < length replies.now) × ((d : Reply) → reply_name (slice_index_or replies.now i d) ≡ name)) }
{
    let count = replies.len();
    if count > 0 && has_name(&replies[count - 1], name) {
        return Some(count - 1);
    }
    for i in 0..replies.len() {
        if has_name(&replies[i], name) {
            return Some(i);
        }
    }
    None
}

/// Which of two replies stands first where the last post's reply does: the one with the higher name.
fn by_name_down(one: &Reply, other: &Reply) -> Ordering {
    other
        .guest
        .cmp(&one.guest)
        .then(other.number.cmp(&one.number))
}

/// Puts the replies into a list in the order of the posts, of which each has one of its name. The list has room for them. The replies
/// are sorted first, the last post's to the front, so that where the posts stand by their names each finds its reply at the end.
/// Takes no memory.
pub fn put_in_order(mails: &[Mail], found: Vec<Reply>, replies: &mut Vec<Reply>)
    requires each { (f : PostName → ℕ) → sum_by f (map reply_name found.items) ≡ sum_by f (map (λ m. m.name) mails.now) }
    requires empty { replies.old.items ≡ [] }
    requires room { length mails.now ≤ vec_capacity replies.old }
    ensures names { map reply_name replies.new.items ≡ map (λ m. m.name) mails.now }
    ensures order { IsPermutation found.items replies.new.items }
{
    let mut left = found;
    left.sort_unstable_by(|one, other| by_name_down(one, other));
    for mail in mails {
        let Some(place) = place_of(left.as_slice(), mail.name) else {
            unreachable!()
        };
        replies.push_reserved(left.swap_remove(place));
    }
}
