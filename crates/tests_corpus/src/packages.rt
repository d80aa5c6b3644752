use package_group::{FileFact, Grouped, group};
use plain_data::Txt;
use std::process::Abort;
use std::test::Fail;
use tree_io::belongs;

/// A file with its path, its name and whether it is a test file.
type Case<'a> = (&'a str, &'a str, bool);

/// The packages of these files, each as a line of its path, folder, name, files and tests, and then
/// the other files.
fn lines_of(rt: &(impl Abort + AllocGlobal), files: &[Case], prefix: &str) -> Result<String, Fail> {
    let alloc = rt.alloc();
    let mut facts = Vec::new(alloc);
    for (path, name, test) in files {
        assert!(rt; belongs(path));
        facts.push(FileFact {
            path: Txt::from_str(alloc, path)?,
            name: Txt::from_str(alloc, name)?,
            test: *test,
        })?;
    }
    assert!(rt; facts.len() < 100);
    let Grouped { packages, others } = group(alloc, facts.as_slice(), prefix)?;
    let mut lines = String::new(alloc);
    for package in packages.as_slice() {
        let path = package.path.as_str();
        let dir = package.dir.as_str();
        let name = package.name.as_str();
        let files = package.files.as_slice();
        let tests = package.tests.as_slice();
        let line = format!(in alloc; "{path} {dir} {name} {files:?} {tests:?}\n")?;
        lines.push_str(line.as_str())?;
    }
    let others = format!(in alloc; "{:?}", others.as_slice())?;
    lines.push_str(others.as_str())?;
    Ok(lines)
}

#[test]
fn files_are_grouped_by_their_folders(rt: HostRuntime) -> Result<(), Fail> {
    let cases: &[(&str, &[Case], &str, &str)] = &[
        ("no file", &[], "", "[]"),
        (
            "a folder's files need not stand side by side",
            &[
                ("a-b/y.go", "y", false),
                ("a.go", "main", false),
                ("a/x.go", "a", false),
                ("a/z/w.go", "z", false),
                ("a/zz.go", "a", false),
            ],
            "",
            "_  main [1] []\na a a [2, 4] []\na-b a-b y [0] []\na/z a/z z [3] []\n[]",
        ),
        (
            "the root with a prefix",
            &[("a.go", "main", false), ("b/c.go", "c", false)],
            "example.com/m",
            "example.com/m  main [0] []\nexample.com/m/b b c [1] []\n[]",
        ),
        (
            "the root without a prefix stands among the others",
            &[
                ("B/c.go", "c", false),
                ("a.go", "main", false),
                ("b/c.go", "c", false),
            ],
            "",
            "B B c [0] []\n_  main [1] []\nb b c [2] []\n[]",
        ),
    ];
    for (shows, files, prefix, lines) in cases {
        let found = lines_of(&rt, files, prefix)?;
        assert!(rt; found.as_str() == *lines, "{shows}");
    }
    Ok(())
}

#[test]
fn a_package_has_the_name_of_its_files(rt: HostRuntime) -> Result<(), Fail> {
    let cases: &[(&str, &[Case], &str)] = &[
        (
            "a folder of tests alone",
            &[
                ("x/a_test.go", "x_test", true),
                ("x/b_test.go", "x", true),
                ("x/c_test.go", "y", true),
            ],
            "x x x [] [0, 1]\n[2]",
        ),
        (
            "x_test by its first file, a test, and then x",
            &[("x/a_test.go", "x_test", true), ("x/b.go", "x", false)],
            "x x x [1] [0]\n[]",
        ),
        (
            "a file that is no test and is named x_test",
            &[
                ("x/a.go", "x_test", false),
                ("x/b.go", "x", false),
                ("x/c_test.go", "x_test_test", true),
            ],
            "x x x_test [0] [2]\n[1]",
        ),
        (
            "a file of another package first by path",
            &[
                ("x/a_test.go", "other", true),
                ("x/b.go", "x", false),
                ("x/c.go", "other", false),
            ],
            "x x x [1] []\n[0, 2]",
        ),
        (
            "nothing stands before _test",
            &[
                ("x/a_test.go", "_test", true),
                ("x/b_test.go", "_test_test", true),
            ],
            "x x _test [] [0, 1]\n[]",
        ),
    ];
    for (shows, files, lines) in cases {
        let found = lines_of(&rt, files, "")?;
        assert!(rt; found.as_str() == *lines, "{shows}");
    }
    Ok(())
}
