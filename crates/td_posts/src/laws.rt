//! Laws of the posts of a job. They do nothing when they are called.

ghost use Rattle.td_posts.specs.Laws.{EachMailIsNamed};

/// Each post of a job is the first of its name: names are distinct.
pub fn each_mail_is_named()
    ensures { EachMailIsNamed }
{}
