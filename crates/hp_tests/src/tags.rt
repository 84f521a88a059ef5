//! Texts, references and tags, with the tokens that the independent lexer of `tools/lexer_table.py` gives.
use crate::cases::Texts;
use hp_elements::Rest;

pub const TAGS: &[Texts] = &[Texts {
    rest: Rest::Data,
    foreign: false,
    rows: "\
abc|[abc]$~\
a b\n c|[a b\n c]$~\
a&amp;b|[a&b]$~\
a&ampb;c|[a&b;c]$~\
&notit;|[\u{ac}it;]$~\
&notin;|[\u{2209}]$~\
a&not|[a\u{ac}]$~\
&#65;|[A]$~\
&#x41|[A]$~\
&#X1F600;x|[\u{1f600}x]$~\
&#128;|[\u{20ac}]$~\
&#1114112;|[\u{fffd}]$~\
&#99999999999;|[\u{fffd}]$~\
&#xD800;|[\u{fffd}]$~\
&foo;|[&foo;]$~\
&foo|[&foo]$~\
a&foob c|[a&foob c]$~\
&#xg|[&#xg]$~\
&#a|[&#a]$~\
<p>|<p>@0$~\
<P CLASS=a>|<p class=a>@0$~\
</p>|</p>@0$~\
</P x=y>|</p>@0$~\
<a href=\"x&amp;y\">|<a href=x&y>@0$~\
<a href='x&ampy'>|<a href=x&ampy>@0$~\
<a href=x&amp=y&ampz>|<a href=x&amp=y&ampz>@0$~\
<a b=1 B=2 c>|<a b=1 c=>@0$~\
<a =b>|<a =b=>@0$~\
<a b =c d= \"e\" f='g'h=i>|<a b=c d=e f=g h=i>@0$~\
<br/>|<br/>@0$~\
<br / >|<br>@0$~\
<br /x>|<br x=>@0$~\
<a b/c>|<a b= c=>@0$~\
<a b|$~\
</>|$~\
</a|$~\
<1|[<1]$~\
< a|[< a]$~\
<a b=\"c|$~\
<a b=c|$~\
<a b=c>d|<a b=c>@0[d]$~\
<a b=\"c\"d>|<a b=c d=>@0$~\
x<y>z|[x]<y>@1[z]$~\
<a b=\">\">&lt;|<a b=>>@0[<]$~\
<a\nb\n=\n\"c\nd\">|<a b=c\nd>@0$~\
<a b=\"&#65;&#x42\">|<a b=AB>@0$~\
<a b=&>|<a b=&>@0$~\
<a b=\"&\">|<a b=&>@0$~\
<a b=\"&xyz\">|<a b=&xyz>@0$~\
\u{e9}&eacute;<\u{e9}>|[\u{e9}\u{e9}<\u{e9}>]$~\
<a\u{c9} \u{c9}=\"\u{c9}\">|<a\u{c9} \u{c9}=\u{c9}>@0$~\
a\0b|[a\0b]$~\
<a\0 \0=\"\0\" c=\0>|<a\u{fffd} \u{fffd}=\u{fffd} c=\u{fffd}>@0$~\
<a b=c&#65>x|<a b=cA>@0[x]$~\
<a b='&lt;x&gt;' c=\"&amp;&amp;\">|<a b=<x> c=&&>@0$~\
<p><q></q></p>|<p>@0<q>@3</q>@6</p>@10$~\
&am|[&am]$~\
&amp|[&]$~\
&thetasy|[&thetasy]$~\
&thetasym;|[\u{3d1}]$~\
<a b=&am|$~\
<a b=\"x\" b=\"y\" b=z c>|<a b=x c=>@0$~\
<a / b>|<a b=>@0$~\
<a / = >|<a ==>@0$~\
a\r\nb\rc\r\r\nd|[a\nb\nc\n\nd]$~\
x\r|[x\n]$~\
<p\r\nA='b\r\nc'>\r\n|<p a=b\nc>@0[\n]$~\
\x20 ab  <i>  cd\tef\n\n</i>\ng|[  ab  ]<i>@6[  cd\tef\n\n]</i>@18[\ng]$~\
<a\r\n\r\nb=\"\rq\" C='\n'>&#13;&amp;\r\n&|<a b=\nq c=\n>@0[\r&\n&]$~\
<abC dEf=GhI jK='L&ampM'>no pq&copyr &copy;\n|<abc def=GhI jk=L&ampM>@0[no pq\u{a9}r \u{a9}\n]$~\
<abcdefghijklmnopqrstuvwxyzabcdef abcdefghijklmnopqrstuvwxyzabcdef=\"abcdefghijklmnopqrstuvwxyzabcdefghijkl\">|<abcdefghijklmnopqrstuvwxyzabcdef abcdefghijklmnopqrstuvwxyzabcdef=abcdefghijklmnopqrstuvwxyzabcdefghijkl>@0$",
}];
