// Short texts that end in every state, with the tokens that an independent lexer gives; written by
// tools/lexer_table.py.
use hp_elements::Rest;

/// Texts that are begun in one state, with their tokens.
pub struct Texts {
    pub rest: Rest,
    /// Whether there is an adjusted current node outside the HTML namespace.
    pub foreign: bool,
    /// A text of no more than 1000 bytes, a bar and its tokens; behind them a tilde and the next ones.
    pub rows: &'static str,
}

pub const CASES: &[Texts] = &[
    Texts {
        rest: Rest::Data,
        foreign: true,
        rows: "\
|$~\
<|[<]$~\
</|[</]$~\
<a|$~\
<a |$~\
<a a|$~\
<a a |$~\
<a a=|$~\
<a a=\"|$~\
<a a='|$~\
<a a=a|$~\
<a a=\"\"|$~\
<a/|$~\
<?|<!--?-->$~\
<!|<!---->$~\
<!--|<!---->$~\
<!---|<!---->$~\
<!--a|<!--a-->$~\
<!--<|<!--<-->$~\
<!--<!|<!--<!-->$~\
<!--<!-|<!--<!-->$~\
<!--<!--|<!--<!-->$~\
<!--a-|<!--a-->$~\
<!----|<!---->$~\
<!----!|<!---->$~\
<!DOCTYPE|<!- - - quirks>$~\
<!DOCTYPE |<!- - - quirks>$~\
<!DOCTYPEa|<!(a) - - quirks>$~\
<!DOCTYPEa |<!(a) - - quirks>$~\
<!DOCTYPEa PUBLIC|<!(a) - - quirks>$~\
<!DOCTYPEa PUBLIC |<!(a) - - quirks>$~\
<!DOCTYPEa PUBLIC\"|<!(a) () - quirks>$~\
<!DOCTYPEa PUBLIC'|<!(a) () - quirks>$~\
<!DOCTYPEa PUBLIC\"\"|<!(a) () - quirks>$~\
<!DOCTYPEa PUBLIC\"\" |<!(a) () - quirks>$~\
<!DOCTYPEa system|<!(a) - - quirks>$~\
<!DOCTYPEa system |<!(a) - - quirks>$~\
<!DOCTYPEa system\"|<!(a) - () quirks>$~\
<!DOCTYPEa system'|<!(a) - () quirks>$~\
<!DOCTYPEa system\"\"|<!(a) - () quirks>$~\
<!DOCTYPEa a|<!(a) - - quirks>$~\
&|[&]$~\
&a|[&a]$~\
&script|[&script]$~\
&#|[&#]$~\
&#x|[&#x]$~\
&#xa|[\n]$~\
&#0|[\u{fffd}]$~\
&#0;|[\u{fffd}]$~\
<![CDATA[a]]b]]]>c<d>|[a]]b]c]<d>@18$~\
<![CDATA[\0\r\n]]>|[\0\n]$",
    },
    Texts {
        rest: Rest::Rcdata,
        foreign: true,
        rows: "\
|$~\
<|[<]$~\
</|[</]$~\
</a|[</a]$~\
&|[&]$",
    },
    Texts {
        rest: Rest::Rawtext,
        foreign: true,
        rows: "\
|$~\
<|[<]$~\
</|[</]$~\
</a|[</a]$",
    },
    Texts {
        rest: Rest::Script,
        foreign: true,
        rows: "\
|$~\
<|[<]$~\
</|[</]$~\
</a|[</a]$~\
<!|[<!]$~\
<!-|[<!-]$~\
<!--<-|[<!--<-]$~\
<!--|[<!--]$~\
<!--<|[<!--<]$~\
<!--</|[<!--</]$~\
<!--</a|[<!--</a]$~\
<!--<a|[<!--<a]$",
    },
    Texts {
        rest: Rest::Plaintext,
        foreign: true,
        rows: "\
|$",
    },
    Texts {
        rest: Rest::Escaped,
        foreign: true,
        rows: "\
|$~\
</a|[</a]$",
    },
    Texts {
        rest: Rest::Double,
        foreign: true,
        rows: "\
|$~\
-|[-]$~\
--|[--]$~\
<|[<]$~\
</|[</]$",
    },
    Texts {
        rest: Rest::Cdata,
        foreign: true,
        rows: "\
|$~\
]|[]]$~\
]]|[]]]$",
    },
    Texts {
        rest: Rest::Data,
        foreign: false,
        rows: "\
a\r\nb\r\rc\n|[a\nb\n\nc\n]$~\
<a b=\"x\r\ny\">\r\n<c>|<a b=x\ny>@0[\n]<c>@14$~\
<!--\r\n-->|<!--\n-->@0$~\
&notit;&notin;&amp|[\u{ac}it;\u{2209}&]$~\
<a b=&notit; c=\"&not=\" d=\"&not;\">|<a b=&notit; c=&not= d=\u{ac}>@0$~\
<a b=\">\">c|<a b=>>@0[c]$~\
&#x41;&#65;&#0;&#128;&#xD800;&#1114112;|[AA\u{fffd}\u{20ac}\u{fffd}\u{fffd}]$~\
<p a=1 A=2>|<p a=1>@0$~\
<!---->a<!-->b<!--->c<!--a--!>d|<!---->@0[a]<!---->@8[b]<!---->@14[c]<!--a-->@21[d]$~\
<!doctype html>|<!(html) - ->@0$~\
<!DOCTYPE a PUBLIC \"p\" \"s\">|<!(a) (p) (s)>@0$~\
<!DOCTYPE a SYSTEM 's'>|<!(a) - (s)>@0$~\
<!DOC|<!--DOC-->$~\
<!DOCTYP>|<!--DOCTYP-->@0$~\
<!DOCTYPE a PUBLI>|<!(a) - - quirks>@0$~\
<!-|<!----->$~\
<![CDATA]>|<!--[CDATA]-->@0$",
    },
    Texts {
        rest: Rest::Script,
        foreign: false,
        rows: "\
<!--<script>a</script>b--></script>c|[<!--<script>a</script>b-->]</script>@26[c]$~\
<!--<script></script></script>d|[<!--<script></script>]</script>@21[d]$~\
</scr></script >e|[</scr>]</script>@6[e]$~\
a\r\n<!--\0-->|[a\n<!--\u{fffd}-->]$",
    },
    Texts {
        rest: Rest::Rcdata,
        foreign: false,
        rows: "\
a&amp;b</titlx></script>c|[a&b</titlx>]</script>@15[c]$~\
</script/>d|</script>@0[d]$~\
&not|[\u{ac}]$~\
</SCRIPT\r\n>e|</script>@0[e]$",
    },
];
