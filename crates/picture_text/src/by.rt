//! `By`: what the colours show (`--by`), with the titles, labels and description of each.

ghost use Rattle.std.specs.Prelude.{◌≡◌, ◌++◌, OnOk};
ghost use Rattle.picture_text.specs.By.{axes_text, colour_meaning, description, dots, facts_label, grounds_text, head_by, head_with, list_label, list_title, meaning_label, sets_head, title_text};

use crate::Memory;
use crate::pieces::put_around;
use net_addr::put_text;

/// What the colours of a picture go by.
#[derive(Clone, Copy)]
pub enum By {
    /// The network of the peer's address.
    Network,
    /// The group of the address that first announced the peer.
    Source,
    /// The group of the peer's own address.
    Group,
    /// How much older the peer's time is than the newest one.
    Age,
}

impl By {
    /// Returns what a colour says of the peer in a slot.
    fn colour_meaning(self) -> &'static [u8]
        ensures { result.now ≡ colour_meaning self }
    {
        match self {
            By::Network => b"the network of the peer.",
            By::Source => b"the group of the source that first announced the peer.",
            By::Group => b"the group of the peer.",
            By::Age => b"how much older the time of the peer is than the newest one.",
        }
    }

    /// Returns the title of the list.
    fn list_title(self) -> &'static [u8]
        ensures { result.now ≡ list_title self }
    {
        match self {
            By::Network => b"Networks with the most slots",
            By::Source => b"Source groups with the most slots",
            By::Group => b"Groups of peers with the most slots",
            By::Age => b"Ages with the most slots",
        }
    }
}

/// Returns how all pictures begin their description.
fn dots() -> &'static [u8]
    ensures { result.now ≡ dots }
{
    b"A square is a bucket, and a dot in it is an occupied slot. Its colour is "
}

/// Returns the title.
#[tactic(auto, unfolding(crate::specs::By::title_text))]
fn title_text() -> &'static [u8]
    ensures { result.now ≡ title_text }
{
    b"<title>The tables of peers.dat</title>\n"
}

/// Returns the styles and the grounds, with darker ones for readers who prefer them.
#[tactic(auto, unfolding(crate::specs::By::grounds_text))]
fn grounds_text() -> &'static [u8]
    ensures { result.now ≡ grounds_text }
{
    b"<style>text{font:13px sans-serif;fill:#1b1f24}.h{font-size:20px}.b{font-weight:bold}\
        .k{font-size:12px;fill:#57606a}.n{text-anchor:end}\
        [fill$=e00]{fill:#652c01}[fill$=b2]{fill:#00396f}[fill$=e73]{fill:#49a97a}\
        [fill$=a7]{fill:#b61b50}[fill$=f00]{fill:#d8a810}[fill$=e9]{fill:#8a4fbf}\
        [fill$=a]{fill:#8b949e}\
        @media(prefers-color-scheme:dark){text{fill:#e6e9ed}.k{fill:#9aa4af}\
        [fill$=fff]{fill:#14171b}[fill$=f2]{fill:#20262c}[fill$=e00]{fill:#ed7c27}\
        [fill$=b2]{fill:#3d80eb}[fill$=e73]{fill:#4bc488}[fill$=a7]{fill:#c498b0}\
        [fill$=f00]{fill:#ffe260}[fill$=e9]{fill:#e2daff}[fill$=a]{fill:#6c7479}\
        [fill$=d]{fill:#cc2211}}</style>\n\
        <pattern id=\"free\" width=\"9\" height=\"9\" patternUnits=\"userSpaceOnUse\"><path \
        fill=\"#eceff2\" d=\"M0 0h8v8h-8z\"/></pattern>\n\
        <rect width=\"1080\" height=\"712\" fill=\"#fff\"/>\n"
}

/// Returns the labels that all pictures have.
#[tactic(auto, unfolding(crate::specs::By::axes_text))]
fn axes_text() -> &'static [u8]
    ensures { result.now ≡ axes_text }
{
    b"<text x=\"24\" y=\"36\" class=\"h\">The tables of peers.dat</text>\n\
        <text x=\"50\" y=\"110\" class=\"n k\">0</text>\n\
        <text x=\"50\" y=\"182\" class=\"n k\">128</text>\n\
        <text x=\"50\" y=\"254\" class=\"n k\">256</text>\n\
        <text x=\"50\" y=\"326\" class=\"n k\">384</text>\n\
        <text x=\"50\" y=\"398\" class=\"n k\">512</text>\n\
        <text x=\"50\" y=\"470\" class=\"n k\">640</text>\n\
        <text x=\"50\" y=\"542\" class=\"n k\">768</text>\n\
        <text x=\"50\" y=\"614\" class=\"n k\">896</text>\n\
        <text x=\"688\" y=\"110\" class=\"n k\">0</text>\n\
        <text x=\"688\" y=\"182\" class=\"n k\">64</text>\n\
        <text x=\"688\" y=\"254\" class=\"n k\">128</text>\n\
        <text x=\"688\" y=\"326\" class=\"n k\">192</text>\n\
        <text x=\"712\" y=\"444\" class=\"k\">group</text>\n\
        <text x=\"896\" y=\"444\" class=\"n k\">slots</text>\n\
        <text x=\"970\" y=\"444\" class=\"n k\">tried</text>\n\
        <text x=\"1056\" y=\"444\" class=\"n k\">new buckets</text>\n"
}

/// Appends what a colour says, between two texts.
fn put_meaning(meaning: &[u8], before: &[u8], after: &[u8], out: &mut Vec<u8>) -> Result<(), Memory>
    ensures { OnOk result (out.new.items ≡ out.old.items
        ++ (before.now ++ (dots ++ (meaning.now ++ after.now)))) }
{
    put_text(before, out)?;
    put_around(dots(), meaning, after, out)
}

/// Appends the description.
#[tactic(auto, unfolding(crate::specs::By::description))]
fn put_description(meaning: &[u8], out: &mut Vec<u8>) -> Result<(), Memory>
    ensures { OnOk result (out.new.items ≡ out.old.items ++ description meaning.now) }
{
    put_meaning(meaning, b"<desc>", b"</desc>\n", out)
}

/// Appends the label that says what a colour says.
#[tactic(auto, unfolding(crate::specs::By::meaning_label))]
fn put_meaning_label(meaning: &[u8], out: &mut Vec<u8>) -> Result<(), Memory>
    ensures { OnOk result (out.new.items ≡ out.old.items ++ meaning_label meaning.now) }
{
    put_meaning(
        meaning,
        b"<text x=\"24\" y=\"58\" class=\"k\">",
        b"</text>\n",
        out,
    )
}

/// Appends the title of the list.
#[tactic(auto, unfolding(crate::specs::By::list_label))]
fn put_list_label(title: &[u8], out: &mut Vec<u8>) -> Result<(), Memory>
    ensures { OnOk result (out.new.items ≡ out.old.items ++ list_label title.now) }
{
    put_around(
        b"<text x=\"694\" y=\"422\" class=\"b\">",
        title,
        b"</text>\n",
        out,
    )
}

/// Appends which tables they are.
#[tactic(auto, unfolding(crate::specs::By::facts_label))]
fn put_facts(facts: &[u8], out: &mut Vec<u8>) -> Result<(), Memory>
    ensures { OnOk result (out.new.items ≡ out.old.items ++ facts_label facts.now) }
{
    put_around(
        b"<text x=\"1056\" y=\"36\" class=\"n k\">",
        facts,
        b"</text>\n",
        out,
    )
}

/// Appends what comes before the titles of the maps: what a colour says, the title of the list, and
/// which tables they are.
#[tactic(auto, unfolding(crate::specs::By::head_with))]
fn put_head(meaning: &[u8], title: &[u8], facts: &[u8], out: &mut Vec<u8>) -> Result<(), Memory>
    ensures { OnOk result (out.new.items
        ≡ out.old.items ++ head_with meaning.now title.now facts.now) }
{
    put_text(title_text(), out)?;
    put_description(meaning, out)?;
    put_text(grounds_text(), out)?;
    put_meaning_label(meaning, out)?;
    put_facts(facts, out)?;
    put_text(axes_text(), out)?;
    put_list_label(title, out)?;
    Ok(())
}

/// Appends the same where colours go by something.
pub(crate) fn put_head_by(by: By, facts: &[u8], out: &mut Vec<u8>) -> Result<(), Memory>
    ensures { OnOk result (out.new.items ≡ out.old.items ++ head_by by facts.now) }
{
    put_head(by.colour_meaning(), by.list_title(), facts, out)
}

/// Appends the same where they go by sets of addresses.
pub(crate) fn put_sets_head(facts: &[u8], out: &mut Vec<u8>) -> Result<(), Memory>
    ensures { OnOk result (out.new.items ≡ out.old.items ++ sets_head facts.now) }
{
    put_head(
        b"the first set in the list that has the peer.",
        b"Sets of peers",
        facts,
        out,
    )
}
