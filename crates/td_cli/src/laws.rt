//! Laws of answers and refusals. They do nothing when they are called.

ghost use Rattle.td_cli.specs.Laws.{AlwaysOne, AnsweredIsAdmitted, NeverBoth, OneAnswer, ReportsDetermineRuns};

use td_cli_host::laws::rings_are_read_or_not;
use td_code::laws::code_is_one;
use td_fetch::laws::runs_are_one;
use td_front::laws as front;
use td_gen::laws::{one_message_each, some_message_each};
use td_grammar::laws::one_tree;
use td_job::laws as jobs;
use td_job_host::laws as host_jobs;
use td_lexer::tokens_are_the_splitting;
use td_report::laws::{reports_determine_outcomes, shown_loads_are_one};
use td_report_facts::laws::{
    jobs_are_sized, loads_are_reportable, modules_have_words, runs_are_reportable,
};
use td_stream::laws::some_message_carries;

/// A command but `host` answers an input with at most one output: so the report of a run is one function of its input.
pub fn one_answer()
    ensures { OneAnswer }
{
    tokens_are_the_splitting();
    one_tree();
    front::one_answer_each();
    jobs::one_answer_each();
    jobs::one_named_answer_each();
    one_message_each();
    runs_are_one();
    some_message_carries();
    code_is_one();
}

/// What a command answers it admits, and what it admits it doesn't refuse.
pub fn never_both()
    ensures answered { AnsweredIsAdmitted }
    ensures both { NeverBoth }
{
    front::one_answer_each();
    jobs::one_answer_each();
    host_jobs::one_answer_each();
    jobs::one_named_answer_each();
    one_message_each();
}

/// Each input of a command is one that the command admits, or it is refused; `bench` with a number too.
pub fn admitted_or_refused()
    ensures { AlwaysOne }
{
    front::module_or_refusal();
    rings_are_read_or_not();
    jobs::job_or_fault();
    host_jobs::job_or_fault();
    some_message_each();
    jobs::named_job_or_fault();
}

/// Two runs of one module whose reports are equal have equal verdicts, traces and cells, and loads of which a report says
/// the same, which are equal where their jobs have one layout, or none: what is said of a run can be read off its report.
pub fn reports_determine_runs()
    ensures { ReportsDetermineRuns }
{
    front::modules_are_checked();
    jobs_are_sized();
    modules_have_words();
    runs_are_reportable();
    loads_are_reportable();
    some_message_carries();
    reports_determine_outcomes();
    shown_loads_are_one();
}
