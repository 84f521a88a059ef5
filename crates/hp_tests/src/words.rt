//! Words and what they ask for.
use hp_words::{CutSetting, NoMemory, OutputForm, PageSetting, Setting, Words, read_setting};
use std::alloc::Global;
use std::process::Abort;

/// Lines that ask for something, each with what it is in short.
static TAKEN: [(&str, &str); 21] = [
    ("", "page 4 tags 65536 Prescan false PrintedTree"),
    ("--workers 1", "page 1 tags 65536 Prescan false PrintedTree"),
    (
        "--workers 64",
        "page 64 tags 65536 Prescan false PrintedTree",
    ),
    (
        "--workers=00000000000000000007",
        "page 7 tags 65536 Prescan false PrintedTree",
    ),
    ("--chunk 64", "page 4 tags 64 Prescan false PrintedTree"),
    (
        "--report --chunk 16777216",
        "page 4 tags 16777216 Prescan true PrintedTree",
    ),
    ("--cuts 3,6", "page 4 [3, 6] Prescan false PrintedTree"),
    (
        "--cuts 6,0,4294967295",
        "page 4 [6, 0, 4294967295] Prescan false PrintedTree",
    ),
    (
        "--cuts=3,6 --guess=quiet --report --workers=2",
        "page 2 [3, 6] Quiet true PrintedTree",
    ),
    (
        "--guess prescan",
        "page 4 tags 65536 Prescan false PrintedTree",
    ),
    (
        "--guess contrary",
        "page 4 tags 65536 Contrary false PrintedTree",
    ),
    ("--html", "page 4 tags 65536 Prescan false HtmlText"),
    (
        "--cuts 3,6 --html --report --guess quiet",
        "page 4 [3, 6] Quiet true HtmlText",
    ),
    (
        "--select ul.b>li",
        "page 4 tags 65536 Prescan false Elements ul.b>li",
    ),
    (
        "--cuts 3,6 --select=* --report --guess quiet --workers 2",
        "page 2 [3, 6] Quiet true Elements *",
    ),
    (
        "--chunk 64 --select=>",
        "page 4 tags 64 Prescan false Elements >",
    ),
    ("--make 0 --bytes 40", "make 0 40"),
    (
        "--bytes=16777216 --make=18446744073709551615",
        "make 18446744073709551615 16777216",
    ),
    ("--drill 7 --bytes 20 --chunk 4096", "drill 7 20 4 4096"),
    ("--workers 3 --bytes 20 --drill 7", "drill 7 20 3 65536"),
    ("--bytes 1 --drill 0", "drill 0 1 4 65536"),
];

/// Lines that are wrong usage.
static REFUSED: [&str; 55] = [
    "--workers 0",
    "--workers 65",
    "--workers 000000000000000000007",
    "--workers +4",
    "--workers -4",
    "--workers 4x",
    "--workers",
    "--workers=",
    "--workers 2 --workers 2",
    "-w 2",
    "--work 2",
    "--chunk 63",
    "--chunk 16777217",
    "--cuts 4294967296",
    "--cuts 3,,4",
    "--cuts ,3",
    "--cuts 3,",
    "--cuts=",
    "--cuts 3, 4",
    "--cuts -",
    "--cuts 3 --chunk 64",
    "--guess loud",
    "--guess Quiet",
    "--guess",
    "--report --report",
    "--report=true",
    "--html --html",
    "--html=true",
    "--make 0 --bytes 40 --html",
    "--drill 7 --bytes 20 --html",
    "--select",
    "--select li --select li",
    "--select li --html",
    "--make 0 --bytes 40 --select li",
    "--drill 7 --bytes 20 --select li",
    "--help",
    "--version",
    "-h",
    "help",
    "page.html",
    "-",
    "--",
    "--workers 4 --",
    "--make 0",
    "--bytes 20",
    "--make 18446744073709551616 --bytes 40",
    "--make 0 --bytes 0",
    "--make 0 --bytes 16777217",
    "--make 0 --drill 0 --bytes 20",
    "--make 0 --bytes 40 --report",
    "--make 0 --bytes 40 --workers 4",
    "--drill 7",
    "--drill 7 --bytes 20 --cuts 3",
    "--drill 7 --bytes 20 --guess quiet",
    "--drill 7 --bytes 20 --report",
];

/// The words of a line, each between single spaces.
fn words_of(alloc: Global, line: &str) -> Result<Words, NoMemory> {
    let mut words = Words::new();
    if !line.is_empty() {
        for word in line.split(' ') {
            words.push(alloc, word)?;
        }
    }
    Ok(words)
}

/// A setting in short.
fn in_short(alloc: Global, setting: &Setting) -> Result<String, NoMemory> {
    match setting {
        Setting::Page(page) => page_in_short(alloc, page),
        Setting::Make { seed, bytes } => format!(in alloc; "make {seed} {bytes}"),
        Setting::Drill {
            seed,
            bytes,
            workers,
            chunk,
        } => format!(in alloc; "drill {seed} {bytes} {workers} {chunk}"),
    }
}

/// As what a tree is written, in short.
fn form_in_short(alloc: Global, form: &OutputForm) -> Result<String, NoMemory> {
    match form {
        OutputForm::PrintedTree => format!(in alloc; "PrintedTree"),
        OutputForm::HtmlText => format!(in alloc; "HtmlText"),
        OutputForm::Elements { selector } => {
            let text = selector.as_str();
            format!(in alloc; "Elements {text}")
        }
    }
}

/// The setting of a page in short.
fn page_in_short(alloc: Global, page: &PageSetting) -> Result<String, NoMemory> {
    let PageSetting {
        workers,
        cutting,
        guess,
        report,
        form,
    } = page;
    let form = form_in_short(alloc, form)?;
    let form = form.as_str();
    match cutting {
        CutSetting::AtTags { size } => format!(in alloc;
            "page {workers} tags {size} {guess:?} {report} {form}"
        ),
        CutSetting::Listed { places } => {
            let places = places.as_slice();
            format!(in alloc; "page {workers} {places:?} {guess:?} {report} {form}")
        }
    }
}

#[test]
fn lines_ask_for_settings(rt: HostRuntime) {
    for (line, short) in TAKEN.as_slice() {
        let words = words_of(rt.alloc(), line).expect(&rt, "memory");
        let setting = read_setting(rt.alloc(), &words)
            .expect(&rt, "memory")
            .expect(&rt, "a setting");
        let found = in_short(rt.alloc(), &setting).expect(&rt, "memory");
        assert!(rt; found.as_str() == *short, "{line}: {found}");
    }
    for line in REFUSED.as_slice() {
        let words = words_of(rt.alloc(), line).expect(&rt, "memory");
        let setting = read_setting(rt.alloc(), &words).expect(&rt, "memory");
        assert!(rt; setting.is_none(), "{line}");
    }
}

/// Whether a selector of so many bytes is taken.
fn is_taken<R: AllocGlobal + Abort>(rt: &R, bytes: usize) -> bool {
    let mut text = String::new(rt.alloc());
    for _ in 0..bytes {
        text.push('a').expect(rt, "memory");
    }
    let mut words = Words::new();
    words.push(rt.alloc(), "--select").expect(rt, "memory");
    words.push(rt.alloc(), text.as_str()).expect(rt, "memory");
    let setting = read_setting(rt.alloc(), &words).expect(rt, "memory");
    setting.is_some()
}

#[test]
fn a_selector_has_at_most_1024_bytes(rt: HostRuntime) {
    assert_eq!(&rt; (is_taken(&rt, 1_024), is_taken(&rt, 1_025)), (true, false));
}
