//! The opening element, the styles, the grounds and the labels of the usual picture.

ghost use Rattle.std.specs.Prelude.{◌≡◌};
ghost use Rattle.picture_text.specs.Head.{head_text, labels_text, opening_text};

/// Returns the opening of the picture's element.
#[tactic(auto, unfolding(crate::specs::Head::opening_text))]
pub(crate) fn opening_text() -> &'static [u8]
    ensures { result.now ≡ opening_text }
{
    b"<svg xmlns=\"http://www.w3.org/2000/svg\" viewBox=\"0 0 1080 712\" role=\"img\">\n"
}

/// Returns what describes the picture, its styles and its grounds.
#[tactic(auto, unfolding(crate::specs::Head::head_text))]
pub(crate) fn head_text() -> &'static [u8]
    ensures { result.now ≡ head_text }
{
    b"<title>The tables of peers.dat</title>\n\
        <desc>A square is a bucket, and a dot in it is an occupied slot. Its colour is the group \
        of the source that first announced the peer.</desc>\n\
        <style>text{font:13px sans-serif;fill:#1b1f24}.h{font-size:20px}.b{font-weight:bold}\
        .k{font-size:12px;fill:#57606a}.n{text-anchor:end}</style>\n\
        <pattern id=\"free\" width=\"9\" height=\"9\" patternUnits=\"userSpaceOnUse\"><path \
        fill=\"#eceff2\" d=\"M0 0h8v8h-8z\"/></pattern>\n\
        <rect width=\"1080\" height=\"712\" fill=\"#fff\"/>\n"
}

/// Returns the texts that each picture has.
#[tactic(auto, unfolding(crate::specs::Head::labels_text))]
pub(crate) fn labels_text() -> &'static [u8]
    ensures { result.now ≡ labels_text }
{
    b"<text x=\"24\" y=\"36\" class=\"h\">The tables of peers.dat</text>\n\
        <text x=\"24\" y=\"58\" class=\"k\">A square is a bucket, and a dot in it is an occupied \
        slot. Its colour is the group of the source that first announced the peer.</text>\n\
        <text x=\"50\" y=\"110\" class=\"n k\">0</text>\n\
        <text x=\"50\" y=\"182\" class=\"n k\">128</text>\n\
        <text x=\"50\" y=\"254\" class=\"n k\">256</text>\n\
        <text x=\"50\" y=\"326\" class=\"n k\">384</text>\n\
        <text x=\"50\" y=\"398\" class=\"n k\">512</text>\n\
        <text x=\"50\" y=\"470\" class=\"n k\">640</text>\n\
        <text x=\"50\" y=\"542\" class=\"n k\">768</text>\n\
        <text x=\"50\" y=\"614\" class=\"n k\">896</text>\n\
        <text x=\"688\" y=\"110\" class=\"n k\">0</text>\n\
        <text x=\"688\" y=\"182\" class=\"n k\">64</text>\n\
        <text x=\"688\" y=\"254\" class=\"n k\">128</text>\n\
        <text x=\"688\" y=\"326\" class=\"n k\">192</text>\n\
        <text x=\"694\" y=\"422\" class=\"b\">Source groups with the most slots</text>\n\
        <text x=\"712\" y=\"444\" class=\"k\">group</text>\n\
        <text x=\"896\" y=\"444\" class=\"n k\">slots</text>\n\
        <text x=\"970\" y=\"444\" class=\"n k\">tried</text>\n\
        <text x=\"1056\" y=\"444\" class=\"n k\">new buckets</text>\n\
        <text x=\"694\" y=\"664\" class=\"k\">Peers announced by one group get 64 of the 1024 \
        new</text>\n\
        <text x=\"694\" y=\"680\" class=\"k\">buckets. A peer that other groups announced too may \
        be</text>\n\
        <text x=\"694\" y=\"696\" class=\"k\">in theirs, and keeps the colour of its first \
        source.</text>\n"
}
