//! Raw text, of which a script's end tag is the end, with the tokens that the independent lexer of `tools/lexer_table.py` gives.
use crate::cases::Texts;
use hp_elements::Rest;

pub const RAW: &[Texts] = &[
    Texts {
        rest: Rest::Rcdata,
        foreign: false,
        rows: "\
a<b>c</script>x|[a<b>c]</script>@5[x]$~\
</SCRIPT >|</script>@0$~\
</script/>|</script>@0$~\
</scrip>|[</scrip>]$~\
</scripts></script|[</scripts></script]$~\
a&amp;|[a&]$~\
</scr|[</scr]$~\
</1|[</1]$~\
<a|[<a]$~\
a\0b|[a\u{fffd}b]$~\
a\r\nb\rc\nd|[a\nb\nc\nd]$~\
</title>|[</title>]$~\
\u{e9}\u{20ac}</script>|[\u{e9}\u{20ac}]</script>@5$~\
</script\u{e9}>|[</script\u{e9}>]$~\
</</script>|[</]</script>@2$~\
</script<</script\t|[</script<]$~\
x</script>|[x]</script>@1$~\
x</script\n|[x]$~\
x</script\r|[x]$~\
x</b>y</script/|[x</b>y]$~\
x</script|[x</script]$~\
x</a1|[x</a1]$",
    },
    Texts {
        rest: Rest::Rawtext,
        foreign: false,
        rows: "\
a{}</script>|[a{}]</script>@3$~\
a&amp;<b></b></SCRIPT\n|[a&amp;<b></b>]$~\
</script/|$~\
</style>|[</style>]$~\
<</|[<</]$~\
</9|[</9]$~\
\0</s|[\u{fffd}</s]$~\
</a></script>|[</a>]</script>@4$~\
\r\n</script>|[\n]</script>@2$",
    },
    Texts {
        rest: Rest::Script,
        foreign: false,
        rows: "\
a<b</script>|[a<b]</script>@3$~\
</SCRIPT\r\n|$~\
</script/|$~\
</scripts>|[</scripts>]$~\
<!x|[<!x]$~\
<!-x|[<!-x]$~\
<!--x|[<!--x]$~\
<!-->x</script>|[<!-->x]</script>@6$~\
<!--->x<|[<!--->x<]$~\
<!--a-b--c-->d</script>|[<!--a-b--c-->d]</script>@14$~\
<!--</script>|[<!--]</script>@4$~\
<!--<script>a</script>b</script>|[<!--<script>a</script>b]</script>@23$~\
<!--<script></script>--></script>|[<!--<script></script>-->]</script>@24$~\
<!--<script>a--></script>|[<!--<script>a-->]</script>@16$~\
<!--<SCRIPT/a</Script\tb<|[<!--<SCRIPT/a</Script\tb<]$~\
<!--<scripts>a</script>|[<!--<scripts>a]</script>@14$~\
<!--<script>-a--b---c<!</a></scripts></script |[<!--<script>-a--b---c<!</a></scripts></script ]$~\
<!--<1</2</a</style></|[<!--<1</2</a</style></]$~\
<!--<scr|[<!--<scr]$~\
<!--<script|[<!--<script]$~\
<!--<script><|[<!--<script><]$~\
<!--<script></|[<!--<script></]$~\
<!--<script></scr|[<!--<script></scr]$~\
<!--<script></1|[<!--<script></1]$~\
<!--\0-\0--\0<\0</\0|[<!--\u{fffd}-\u{fffd}--\u{fffd}<\u{fffd}</\u{fffd}]$~\
<!--<script>\0-\0--\0<\0</\0|[<!--<script>\u{fffd}-\u{fffd}--\u{fffd}<\u{fffd}</\u{fffd}]$~\
<!--<a\0<b!|[<!--<a\u{fffd}<b!]$~\
<!--</b\r\n</script>|[<!--</b\n]</script>@9$~\
x</script |[x]$~\
a\rb\r\n<!-\r-<!--\r\n-\r--\r\n<script\r\n-\r\n--\r\n</script\r\n|[a\nb\n<!-\n-<!--\n-\n--\n<script\n-\n--\n</script\n]$~\
\0</\0|[\u{fffd}</\u{fffd}]$~\
<!---</script>|[<!---]</script>@5$~\
<!----></script>|[<!---->]</script>@7$~\
<!--<script>---></script>|[<!--<script>--->]</script>@16$",
    },
    Texts {
        rest: Rest::Plaintext,
        foreign: false,
        rows: "\
a<b></plaintext>&amp;\0\r\n|[a<b></plaintext>&amp;\u{fffd}\n]$",
    },
    Texts {
        rest: Rest::Escaped,
        foreign: false,
        rows: "\
-|[-]$",
    },
    Texts {
        rest: Rest::EscapedDash,
        foreign: false,
        rows: "\
-|[-]$~\
a|[a]$~\
<|[<]$~\
\0|[\u{fffd}]$~\
|$",
    },
    Texts {
        rest: Rest::EscapedDashDash,
        foreign: false,
        rows: "\
>a|[>a]$~\
a|[a]$~\
-><!|[-><!]$~\
|$",
    },
    Texts {
        rest: Rest::DoubleDash,
        foreign: false,
        rows: "\
-|[-]$~\
a>|[a>]$~\
</script>|[</script>]$~\
|$",
    },
    Texts {
        rest: Rest::DoubleDashDash,
        foreign: false,
        rows: "\
></script>|[>]</script>@1$~\
--><|[--><]$~\
a></script >|[a></script >]$~\
|$",
    },
];
