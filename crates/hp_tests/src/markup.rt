//! Comments, doctypes and sections, with the tokens that the independent lexer of `tools/lexer_table.py` gives.
use crate::cases::Texts;
use hp_elements::Rest;

pub const MARKUP: &[Texts] = &[
    Texts {
        rest: Rest::Data,
        foreign: false,
        rows: "\
<!- x|<!--- x-->$~\
<!--x-->|<!--x-->@0$~\
<!-->|<!---->@0$~\
<!--->|<!---->@0$~\
<!---->|<!---->@0$~\
<!----->|<!----->@0$~\
<!--a-b-->|<!--a-b-->@0$~\
<!--a--b-->|<!--a--b-->@0$~\
<!--a--->|<!--a--->@0$~\
<!--a--!>|<!--a-->@0$~\
<!--a--!b-->|<!--a--!b-->@0$~\
<!--a--!-->|<!--a--!-->@0$~\
<!--a--!-b-->|<!--a--!-b-->@0$~\
<!--a-!>-->|<!--a-!>-->@0$~\
<!--<!-->|<!--<!-->@0$~\
<!--<!--->|<!--<!--->@0$~\
<!--<!---->|<!--<!---->@0$~\
<!--<!--a-->|<!--<!--a-->@0$~\
<!--<!a-->|<!--<!a-->@0$~\
<!--<!-a-->|<!--<!-a-->@0$~\
<!--<!->-->|<!--<!->-->@0$~\
<!--<<!--<-->|<!--<<!--<-->@0$~\
<!--a<b-->|<!--a<b-->@0$~\
<!--\0a\0-->|<!--\u{fffd}a\u{fffd}-->@0$~\
<!--a\r\nb\rc\nd-->|<!--a\nb\nc\nd-->@0$~\
<!--\u{e9}\u{1f600}-->|<!--\u{e9}\u{1f600}-->@0$~\
<!-----|<!----->$~\
<!--a--|<!--a-->$~\
<!--a--!|<!--a-->$~\
<!--a<|<!--a<-->$~\
<!--a<!|<!--a<!-->$~\
<!--a<!-|<!--a<!-->$~\
<!--a<!--|<!--a<!-->$~\
<!--x\r|<!--x\n-->$~\
<!-x>|<!---x-->@0$~\
<!-\0>|<!---\u{fffd}-->@0$~\
<!x|<!--x-->$~\
<!x\0y>|<!--x\u{fffd}y-->@0$~\
<!\0|<!--\u{fffd}-->$~\
<!x\r\ny>|<!--x\ny-->@0$~\
<!>|<!---->@0$~\
<!\n>|<!--\n-->@0$~\
<!DOCTYPE html>|<!(html) - ->@0$~\
<!doctype HTML>|<!(html) - ->@0$~\
<!DoCtYpE hTmL >|<!(html) - ->@0$~\
<!docty|<!--docty-->$~\
<!doctyp>|<!--doctyp-->@0$~\
<!doctypx>|<!--doctypx-->@0$~\
<!DOCTYPE>|<!- - - quirks>@0$~\
<!DOCTYPE >|<!- - - quirks>@0$~\
<!DOCTYPEhtml>|<!(html) - ->@0$~\
<!DOCTYPE\r\nhtml\r\n>|<!(html) - ->@0$~\
<!DOCTYPE h|<!(h) - - quirks>$~\
<!DOCTYPE \0h\0>|<!(\u{fffd}h\u{fffd}) - ->@0$~\
<!DOCTYPE html|<!(html) - - quirks>$~\
<!DOCTYPE html x>|<!(html) - - quirks>@0$~\
<!DOCTYPE html x\0y|<!(html) - - quirks>$~\
<!DOCTYPE html p|<!(html) - - quirks>$~\
<!DOCTYPE html publi|<!(html) - - quirks>$~\
<!DOCTYPE html publix>|<!(html) - - quirks>@0$~\
<!DOCTYPE html PuBlIc|<!(html) - - quirks>$~\
<!DOCTYPE html PuBlIc>|<!(html) - - quirks>@0$~\
<!DOCTYPE html PUBLIC >|<!(html) - - quirks>@0$~\
<!DOCTYPE html PUBLIC \"a\" 'b'>|<!(html) (a) (b)>@0$~\
<!DOCTYPE html PUBLIC\"a\"'b'>|<!(html) (a) (b)>@0$~\
<!DOCTYPE html PUBLIC 'a'\"b\" x>|<!(html) (a) (b)>@0$~\
<!DOCTYPE html PUBLIC \"a\">|<!(html) (a) ->@0$~\
<!DOCTYPE html PUBLIC \"a\" >|<!(html) (a) ->@0$~\
<!DOCTYPE html PUBLIC \"a\"x>|<!(html) (a) - quirks>@0$~\
<!DOCTYPE html PUBLIC \"a\" x>|<!(html) (a) - quirks>@0$~\
<!DOCTYPE html PUBLIC x>|<!(html) - - quirks>@0$~\
<!DOCTYPE html PUBLICx\"a\">|<!(html) - - quirks>@0$~\
<!DOCTYPE html PUBLIC \"\">|<!(html) () ->@0$~\
<!DOCTYPE html PUBLIC \"a\0\r\nb\" \"\0\">|<!(html) (a\u{fffd}\nb) (\u{fffd})>@0$~\
<!DOCTYPE html PUBLIC \"a>|<!(html) (a) - quirks>@0$~\
<!DOCTYPE html PUBLIC 'a>|<!(html) (a) - quirks>@0$~\
<!DOCTYPE html PUBLIC \"a|<!(html) (a) - quirks>$~\
<!DOCTYPE html PUBLIC \"a\"|<!(html) (a) - quirks>$~\
<!DOCTYPE html PUBLIC \"a\" |<!(html) (a) - quirks>$~\
<!DOCTYPE html PUBLIC \"a\" \"b|<!(html) (a) (b) quirks>$~\
<!DOCTYPE html PUBLIC \"a\" \"b\"|<!(html) (a) (b) quirks>$~\
<!DOCTYPE html PUBLIC \"a\" \"b\" >|<!(html) (a) (b)>@0$~\
<!DOCTYPE html PUBLIC \"a\" 'b>|<!(html) (a) (b) quirks>@0$~\
<!DOCTYPE html\rPUBLIC\n\r'\u{e9}'\r\n>|<!(html) (\u{e9}) ->@0$~\
<!DOCTYPE html SyStEm \"b\">|<!(html) - (b)>@0$~\
<!DOCTYPE html SYSTEM>|<!(html) - - quirks>@0$~\
<!DOCTYPE html SYSTEM |<!(html) - - quirks>$~\
<!DOCTYPE html SYSTEM  >|<!(html) - - quirks>@0$~\
<!DOCTYPE html SYSTEM\"b\"y\0>|<!(html) - (b)>@0$~\
<!DOCTYPE html SYSTEM 'b'|<!(html) - (b) quirks>$~\
<!DOCTYPE html SYSTEM '\n' >|<!(html) - (\n)>@0$~\
<!DOCTYPE html SYSTEM x 'b'>|<!(html) - - quirks>@0$~\
<!DOCTYPE html SYSTEMx 'b'>|<!(html) - - quirks>@0$~\
<!DOCTYPE html SYSTEM 'a\" PUBLIC >|<!(html) - (a\" PUBLIC ) quirks>@0$~\
<!DOCTYPE html SYSTE>|<!(html) - - quirks>@0$~\
<!DOCTYPE html systeM|<!(html) - - quirks>$~\
<!DOCTYPE\u{e9}>|<!(\u{e9}) - ->@0$~\
<!DOCTYPE html \r>|<!(html) - ->@0$~\
<![|<!--[-->$~\
<![CDAT|<!--[CDAT-->$~\
<![CDATA>|<!--[CDATA-->@0$~\
<![cdata[x]]>|<!--[cdata[x]]-->@0$~\
<![CDATA[|<!--[CDATA[-->$~\
<![CDATA[x]]>|<!--[CDATA[x]]-->@0$~\
<![CDATA[>|<!--[CDATA[-->@0$~\
<![CDATA[x\0y>|<!--[CDATA[x\u{fffd}y-->@0$~\
<![CDATA[]]>|<!--[CDATA[]]-->@0$~\
<![CDATA[x]|<!--[CDATA[x]-->$~\
<![CDATA[x]]|<!--[CDATA[x]]-->$~\
<![CDATA[x]]y]]]>|<!--[CDATA[x]]y]]]-->@0$",
    },
    Texts {
        rest: Rest::Data,
        foreign: true,
        rows: "\
<![CDATA[|$~\
<![CDATA[x]]>|[x]$~\
<![CDATA[>|[>]$~\
<![CDATA[x\0y>|[x\0y>]$~\
<![CDATA[]]>|$~\
<![CDATA[x]|[x]]$~\
<![CDATA[x]]|[x]]]$~\
<![CDATA[x]]y]]]>|[x]]y]]$~\
<![CDATA[\r\na\0 ]>]]>|[\na\0 ]>]$~\
<![CDATA[a]b]>]]>|[a]b]>]$",
    },
];
