// The attributes of a line, each named beside what shows it.
ghost use Rattle.std.specs.Prelude.{◌≡◌, not};
ghost use Rattle.listing_rules.specs.Flags.{subscribed};
ghost use Rattle.listing_rules.specs.Listing.{attributes_for};
ghost use Rattle.listing_rules.specs.Lsub.{lsub_attributes};
ghost use Rattle.octets.specs.Sets.{contains};
ghost use Rattle.command_line.specs.OptionSets.{options_is};
ghost use Rattle.list_line.specs.Members.{set_of};
ghost use Rattle.list_answer.specs.Sets.{with_member, adds};
ghost use Rattle.list_answer.specs.Attributes.{own_attributes, use_attributes};

use super::members::with;
use super::question::Question;
use list_line::Attributes;
use mailbox_table::flags::Flags;
use octets::Members;

// The attributes of a LIST line, for a name with these flags. A level shows \HasChildren, asked or not.
pub(crate) fn attributes_of(
    flags: Flags,
    question: Question,
    children: bool,
    level: bool,
) -> Attributes
    ensures { result.bits ≡ set_of (attributes_for flags.bits (options_is question.options) children level) }
{
    let own = own_attributes(flags, question.shows_subscribed());
    let set = with_uses(own, flags, question.shows_uses());
    let asked = question.shows_children();
    let parent = with(set, (asked & children) | level, Attributes::HAS_CHILDREN);
    with(
        parent,
        asked & !children & !flags.has(Flags::NO_INFERIORS),
        Attributes::HAS_NO_CHILDREN,
    )
}

// The attributes of an LSUB line: \Noselect alone, where a name with these flags is not subscribed.
pub(crate) fn lsub_attributes(flags: Flags) -> Attributes
    ensures { result.bits ≡ set_of (lsub_attributes (not (subscribed flags.bits))) }
{
    with(
        Attributes::NONE,
        !flags.has(Flags::SUBSCRIBED),
        Attributes::NOSELECT,
    )
}

// The first seven, \Marked to \NonExistent; `subscribed` says whether \Subscribed is asked.
fn own_attributes(flags: Flags, subscribed: bool) -> Attributes
    ensures { result.bits ≡ adds 0 1 (own_attributes flags.bits subscribed) }
{
    let mut set = Attributes::NONE;
    set = with_flag(set, flags, Flags::MARKED, Attributes::MARKED);
    set = with_flag(set, flags, Flags::UNMARKED, Attributes::UNMARKED);
    set = with_flag(set, flags, Flags::NO_SELECT, Attributes::NOSELECT);
    set = with_flag(set, flags, Flags::NO_INFERIORS, Attributes::NO_INFERIORS);
    set = with_flag(set, flags, Flags::REMOTE, Attributes::REMOTE);
    set = with(
        set,
        flags.has(Flags::SUBSCRIBED) & subscribed,
        Attributes::SUBSCRIBED,
    );
    with(set, !flags.has(Flags::EXISTS), Attributes::NON_EXISTENT)
}

// The set with the seven special uses, \All to \Trash, where they are asked.
fn with_uses(own: Attributes, flags: Flags, asked: bool) -> Attributes
    ensures { result.bits ≡ adds own.bits 128 (use_attributes flags.bits asked) }
{
    if !asked {
        return own;
    }
    let mut set = own;
    set = with_flag(set, flags, Flags::ALL, Attributes::ALL);
    set = with_flag(set, flags, Flags::ARCHIVE, Attributes::ARCHIVE);
    set = with_flag(set, flags, Flags::DRAFTS, Attributes::DRAFTS);
    set = with_flag(set, flags, Flags::FLAGGED, Attributes::FLAGGED);
    set = with_flag(set, flags, Flags::JUNK, Attributes::JUNK);
    set = with_flag(set, flags, Flags::SENT, Attributes::SENT);
    with_flag(set, flags, Flags::TRASH, Attributes::TRASH)
}

// The set with this attribute, where the flag is among the flags.
fn with_flag(set: Attributes, flags: Flags, flag: Flags, attribute: Attributes) -> Attributes
    ensures { result.bits ≡ with_member set.bits (contains flags.bits flag.bits) attribute.bits }
{
    with(set, flags.has(flag), attribute)
}
