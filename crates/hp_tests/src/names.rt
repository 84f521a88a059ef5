//! Every name and every replaced value against an independent reader's lists.
use hp_names::{Found, Names, numeric};
use std::process::Abort;

/// Each name with its code point in hexadecimal digits, in the order of bytes; the lists of tools/reference_names.py.
const NAMES: &str = "\
AElig c6,AElig; c6,AMP 26,AMP; 26,Aacute c1,Aacute; c1,Acirc c2,Acirc; c2,Agrave c0,Agrave; c0,Alpha; 391,Aring c5,\
Aring; c5,Atilde c3,Atilde; c3,Auml c4,Auml; c4,Beta; 392,COPY a9,COPY; a9,Ccedil c7,Ccedil; c7,Chi; 3a7,Dagger; 2021,\
Delta; 394,ETH d0,ETH; d0,Eacute c9,Eacute; c9,Ecirc ca,Ecirc; ca,Egrave c8,Egrave; c8,Epsilon; 395,Eta; 397,Euml cb,\
Euml; cb,GT 3e,GT; 3e,Gamma; 393,Iacute cd,Iacute; cd,Icirc ce,Icirc; ce,Igrave cc,Igrave; cc,Iota; 399,Iuml cf,\
Iuml; cf,Kappa; 39a,LT 3c,LT; 3c,Lambda; 39b,Mu; 39c,Ntilde d1,Ntilde; d1,Nu; 39d,OElig; 152,Oacute d3,Oacute; d3,\
Ocirc d4,Ocirc; d4,Ograve d2,Ograve; d2,Omega; 3a9,Omicron; 39f,Oslash d8,Oslash; d8,Otilde d5,Otilde; d5,Ouml d6,\
Ouml; d6,Phi; 3a6,Pi; 3a0,Prime; 2033,Psi; 3a8,QUOT 22,QUOT; 22,REG ae,REG; ae,Rho; 3a1,Scaron; 160,Sigma; 3a3,\
THORN de,THORN; de,Tau; 3a4,Theta; 398,Uacute da,Uacute; da,Ucirc db,Ucirc; db,Ugrave d9,Ugrave; d9,Upsilon; 3a5,\
Uuml dc,Uuml; dc,Xi; 39e,Yacute dd,Yacute; dd,Yuml; 178,Zeta; 396,aacute e1,aacute; e1,acirc e2,acirc; e2,acute b4,\
acute; b4,aelig e6,aelig; e6,agrave e0,agrave; e0,alefsym; 2135,alpha; 3b1,amp 26,amp; 26,and; 2227,ang; 2220,\
apos; 27,aring e5,aring; e5,asymp; 2248,atilde e3,atilde; e3,auml e4,auml; e4,bdquo; 201e,beta; 3b2,brvbar a6,\
brvbar; a6,bull; 2022,cap; 2229,ccedil e7,ccedil; e7,cedil b8,cedil; b8,cent a2,cent; a2,chi; 3c7,circ; 2c6,\
clubs; 2663,cong; 2245,copy a9,copy; a9,crarr; 21b5,cup; 222a,curren a4,curren; a4,dArr; 21d3,dagger; 2020,darr; 2193,\
deg b0,deg; b0,delta; 3b4,diams; 2666,divide f7,divide; f7,eacute e9,eacute; e9,ecirc ea,ecirc; ea,egrave e8,\
egrave; e8,empty; 2205,emsp; 2003,ensp; 2002,epsilon; 3b5,equiv; 2261,eta; 3b7,eth f0,eth; f0,euml eb,euml; eb,\
euro; 20ac,exist; 2203,fnof; 192,forall; 2200,frac12 bd,frac12; bd,frac14 bc,frac14; bc,frac34 be,frac34; be,\
frasl; 2044,gamma; 3b3,ge; 2265,gt 3e,gt; 3e,hArr; 21d4,harr; 2194,hearts; 2665,hellip; 2026,iacute ed,iacute; ed,\
icirc ee,icirc; ee,iexcl a1,iexcl; a1,igrave ec,igrave; ec,image; 2111,infin; 221e,int; 222b,iota; 3b9,iquest bf,\
iquest; bf,isin; 2208,iuml ef,iuml; ef,kappa; 3ba,lArr; 21d0,lambda; 3bb,lang; 27e8,laquo ab,laquo; ab,larr; 2190,\
lceil; 2308,ldquo; 201c,le; 2264,lfloor; 230a,lowast; 2217,loz; 25ca,lrm; 200e,lsaquo; 2039,lsquo; 2018,lt 3c,lt; 3c,\
macr af,macr; af,mdash; 2014,micro b5,micro; b5,middot b7,middot; b7,minus; 2212,mu; 3bc,nabla; 2207,nbsp a0,nbsp; a0,\
ndash; 2013,ne; 2260,ni; 220b,not ac,not; ac,notin; 2209,nsub; 2284,ntilde f1,ntilde; f1,nu; 3bd,oacute f3,oacute; f3,\
ocirc f4,ocirc; f4,oelig; 153,ograve f2,ograve; f2,oline; 203e,omega; 3c9,omicron; 3bf,oplus; 2295,or; 2228,ordf aa,\
ordf; aa,ordm ba,ordm; ba,oslash f8,oslash; f8,otilde f5,otilde; f5,otimes; 2297,ouml f6,ouml; f6,para b6,para; b6,\
part; 2202,permil; 2030,perp; 22a5,phi; 3c6,pi; 3c0,piv; 3d6,plusmn b1,plusmn; b1,pound a3,pound; a3,prime; 2032,\
prod; 220f,prop; 221d,psi; 3c8,quot 22,quot; 22,rArr; 21d2,radic; 221a,rang; 27e9,raquo bb,raquo; bb,rarr; 2192,\
rceil; 2309,rdquo; 201d,real; 211c,reg ae,reg; ae,rfloor; 230b,rho; 3c1,rlm; 200f,rsaquo; 203a,rsquo; 2019,\
sbquo; 201a,scaron; 161,sdot; 22c5,sect a7,sect; a7,shy ad,shy; ad,sigma; 3c3,sigmaf; 3c2,sim; 223c,spades; 2660,\
sub; 2282,sube; 2286,sum; 2211,sup1 b9,sup1; b9,sup2 b2,sup2; b2,sup3 b3,sup3; b3,sup; 2283,supe; 2287,szlig df,\
szlig; df,tau; 3c4,there4; 2234,theta; 3b8,thetasym; 3d1,thinsp; 2009,thorn fe,thorn; fe,tilde; 2dc,times d7,\
times; d7,trade; 2122,uArr; 21d1,uacute fa,uacute; fa,uarr; 2191,ucirc fb,ucirc; fb,ugrave f9,ugrave; f9,uml a8,\
uml; a8,upsih; 3d2,upsilon; 3c5,uuml fc,uuml; fc,weierp; 2118,xi; 3be,yacute fd,yacute; fd,yen a5,yen; a5,yuml ff,\
yuml; ff,zeta; 3b6,zwj; 200d,zwnj; 200c";

/// Each value that stands for another code point, with that, and values at the ends of what is replaced.
const VALUES: &str = "\
80 20ac,82 201a,83 192,84 201e,85 2026,86 2020,87 2021,88 2c6,89 2030,8a 160,8b 2039,8c 152,8e 17d,91 2018,92 2019,\
93 201c,94 201d,95 2022,96 2013,97 2014,98 2dc,99 2122,9a 161,9b 203a,9c 153,9e 17e,9f 178,\
0 fffd,41 41,7f 7f,81 81,8d 8d,9d 9d,a0 a0,d7ff d7ff,d800 fffd,dfff fffd,e000 e000,10ffff 10ffff,110000 fffd,\
ffffffffffffffff fffd";

/// Whether a name is found, alone and before the other bytes of its row.
fn is_found(name: &str, first: char, row: &str) -> bool {
    let names = Names::built_in();
    let wanted = Some(Found {
        length: name.len() as u64,
        first,
        second: None,
        ends_with_semicolon: name.ends_with(';'),
    });
    names.longest(name.as_bytes()) == wanted && names.longest(row.as_bytes()) == wanted
}

/// Whether the name, or else the value whose digits stand in its place, stands for the code point whose digits follow; where the row has no
/// such parts, nothing.
fn is_so(of_names: bool, row: &str) -> Option<bool> {
    let (left, digits) = row.split_once(' ')?;
    let code = char::from_u32(u32::from_str_radix(digits, 16).ok()?)?;
    if of_names {
        return Some(is_found(left, code, row));
    }
    Some(numeric(u64::from_str_radix(left, 16).ok()?) == code)
}

/// Shows that each row is so, of names or else of values, and answers how many there are.
fn show_rows(rt: &impl Abort, of_names: bool, rows: &str) -> u64 {
    let mut count: u64 = 0;
    for row in rows.split(',') {
        assert!(rt; is_so(of_names, row) == Some(true), "{row}");
        count = count.saturating_add(1);
    }
    count
}

#[test]
fn names_and_values_stand_for_code_points(rt: HostRuntime) {
    assert!(rt; show_rows(&rt, true, NAMES) == 365);
    assert!(rt; show_rows(&rt, false, VALUES) == 41);
}
