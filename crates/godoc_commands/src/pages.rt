//! The pages, byte for byte.

ghost use Rattle.std.specs.Prelude.{◌≡◌, ◌<◌, ◌++◌, All, IfOk, OnOk, length, map};
ghost use Rattle.std.specs.List.{flat_map};
ghost use Rattle.godoc_commands.specs.Pages.{SaysPage, address_of, entry_at, fault_item};
ghost use Rattle.godoc_commands.specs.Pages.{fault_line, faults_line, faults_page, faults_start};
ghost use Rattle.godoc_commands.specs.Pages.{file_link, has_page, list_page, list_start, list_end};
ghost use Rattle.godoc_commands.specs.Pages.{message, message_page, package_line, page_end};
ghost use Rattle.godoc_commands.specs.Pages.{page_start};

use crate::faults::push_fault;
use corpus::{Corpus, FileFault, own_tables};
use go_ast::{Fault, Mem};
use package_group::Package;
use percent_encoding::{AsciiSet, NON_ALPHANUMERIC, ascii_set, utf8_percent_encode};
use std::alloc::Global;
use std::str::from_utf8;
use text_out::Text;
use tree_io::Entry;

/// The ASCII bytes that are percent-encoded in an address: all but letters, digits and `-._~/`.
const ENCODED: AsciiSet = ascii_set!(
    NON_ALPHANUMERIC
        .remove(b'-')
        .remove(b'.')
        .remove(b'_')
        .remove(b'~')
        .remove(b'/')
);

/// Starts a page with a title: all that stands before its body part.
#[tactic(auto, unfolding(crate::specs::Pages::page_start))]
fn start_page(alloc: Global, title: &str) -> Mem<Text>
    ensures { IfOk result (λ text. text ≡ page_start title.now) }
{
    let mut text = Text::new(alloc);
    text.push("<!DOCTYPE html>\n<html><head><meta charset=\"utf-8\"><title>")?;
    text.push_escaped(title)?;
    text.push("</title></head><body>\n")?;
    Ok(text)
}

/// Ends a page after its body part.
#[tactic(auto, unfolding(crate::specs::Pages::page_end))]
fn end_page(mut text: Text) -> Mem<Vec<u8>>
    ensures { IfOk result (λ page. page.items ≡ text ++ page_end) }
{
    text.push("</body></html>\n")?;
    Ok(text.into_bytes())
}

/// The page that lists the packages of a corpus by their paths, and counts its faults.
pub(crate) fn list_page(alloc: Global, corpus: &Corpus) -> Mem<Vec<u8>>
    ensures { IfOk result (λ page. page.items
        ≡ list_page (map (λ p. p.path) corpus.now.tables.packages)
        (length corpus.now.tables.faults)) }
{
    let mut text = start_page(alloc, "Packages")?;
    push_list(alloc, &mut text, corpus.packages())?;
    push_fault_count(&mut text, corpus.faults().len())?;
    end_page(text)
}

/// Appends the list of packages, with its heading.
#[tactic(auto, unfolding(crate::specs::Pages::list_start, crate::specs::Pages::list_end))]
fn push_list(alloc: Global, text: &mut Text, packages: &[Package]) -> Mem<()>
    ensures { OnOk result (text.new ≡ text.old
        ++ (list_start ++ flat_map package_line (map (λ p. p.path) packages.now) ++ list_end)) }
{
    text.push("<h1>Packages</h1>\n<ul>\n")?;
    push_packages(alloc, text, packages)?;
    text.push("</ul>\n")
}

/// Appends a line for each package.
fn push_packages(alloc: Global, text: &mut Text, packages: &[Package]) -> Mem<()>
    ensures { OnOk result
        (text.new ≡ text.old ++ flat_map package_line (map (λ p. p.path) packages.now)) }
{
    for package in packages {
        push_package(alloc, text, package.path.as_str())?;
    }
    Ok(())
}

/// Appends the line that counts the files with faults, where there are some.
#[tactic(auto, unfolding(crate::specs::Pages::faults_line))]
fn push_fault_count(text: &mut Text, count: usize) -> Mem<()>
    ensures { OnOk result (text.new ≡ text.old ++ faults_line count) }
{
    if count == 0 {
        return Ok(());
    }
    text.push("<p><a href=\"/faults\">")?;
    text.push_number(count as u64)?;
    text.push(" files with faults</a></p>\n")
}

/// Appends the line of one package: its path, with the address of its page.
#[tactic(auto, unfolding(crate::specs::Pages::package_line))]
fn push_package(alloc: Global, text: &mut Text, path: &str) -> Mem<()>
    ensures { OnOk result (text.new ≡ text.old ++ package_line path.now) }
{
    text.push("<li><a href=\"/pkg/")?;
    push_address(alloc, text, path)?;
    text.push("/\">")?;
    text.push_escaped(path)?;
    text.push("</a></li>\n")
}

/// Appends a path as it stands in an address.
fn push_address(alloc: Global, text: &mut Text, path: &str) -> Mem<()>
    ensures { OnOk result (text.new ≡ text.old ++ address_of path.now) }
{
    let address = utf8_percent_encode(path, ENCODED).into_cow(alloc)?;
    text.push(address.as_str())
}

/// The page that lists the files of a corpus with faults.
pub(crate) fn faults_page(alloc: Global, corpus: &Corpus) -> Mem<Vec<u8>>
    ensures { IfOk result
        (λ page. page.items ≡ faults_page corpus.now.sources.entries corpus.now.tables.faults) }
{
    let mut text = start_page(alloc, "Faults")?;
    push_faults(alloc, &mut text, corpus)?;
    end_page(text)
}

/// Appends the list of the files with faults, with its heading.
#[tactic(auto, unfolding(crate::specs::Pages::faults_start, crate::specs::Pages::list_end))]
fn push_faults(alloc: Global, text: &mut Text, corpus: &Corpus) -> Mem<()>
    ensures { OnOk result (text.new ≡ text.old ++ (faults_start
        ++ flat_map (fault_line corpus.now.sources.entries) corpus.now.tables.faults ++ list_end)) }
{
    own_tables(corpus);
    text.push("<h1>Faults</h1>\n<ul>\n")?;
    push_fault_lines(alloc, text, corpus, corpus.faults())?;
    text.push("</ul>\n")
}

/// Appends a line for each of these faults of a corpus.
fn push_fault_lines(
    alloc: Global,
    text: &mut Text,
    corpus: &Corpus,
    faults: &[FileFault],
) -> Mem<()>
    requires within { All (λ fault. fault.file < length corpus.now.sources.entries) faults.now }
    requires says { All (λ fault. SaysPage fault.fault
        (entry_at corpus.now.sources.entries fault.file)) faults.now }
    ensures { OnOk result
        (text.new ≡ text.old ++ flat_map (fault_line corpus.now.sources.entries) faults.now) }
{
    for fault in faults {
        let path = corpus.path(fault.file);
        push_fault_item(
            alloc,
            text,
            path,
            has_page(&fault.fault, corpus.entry(fault.file)),
            &fault.fault,
        )?;
    }
    Ok(())
}

/// Whether a file with this fault has a page of its own: its bytes are kept, and are UTF-8. Its
/// bytes are looked at only where it is too large or unread, since any other fault tells.
fn has_page(fault: &Fault, entry: &Entry) -> bool
    requires { SaysPage fault.now entry.now }
    ensures { result ≡ has_page entry.now }
{
    match fault {
        Fault::NotUtf8(_) => false,
        Fault::FileTooLarge | Fault::Unread => is_text(entry),
        Fault::BadToken(_)
        | Fault::OpenComment(_)
        | Fault::OpenString(_)
        | Fault::Unbalanced(_)
        | Fault::NoPackageClause
        | Fault::BadDeclaration(..)
        | Fault::OtherPackage(_)
        | Fault::BadBuildLine(_) => true,
    }
}

/// Whether the bytes of a file are kept, and are UTF-8.
fn is_text(entry: &Entry) -> bool
    ensures { result ≡ has_page entry.now }
{
    match entry {
        Entry::Bytes(bytes) => from_utf8(bytes.as_slice()).is_ok(),
        Entry::Large | Entry::Unread => false,
    }
}

/// Appends the line of a fault of the file at a path, which has a page or none.
#[tactic(auto, unfolding(crate::specs::Pages::fault_item))]
fn push_fault_item(
    alloc: Global,
    text: &mut Text,
    path: &str,
    paged: bool,
    fault: &Fault,
) -> Mem<()>
    ensures { OnOk result (text.new ≡ text.old ++ fault_item path.now paged fault.now) }
{
    text.push("<li>")?;
    push_file_link(alloc, text, path, paged)?;
    text.push(": ")?;
    push_fault(text, fault)?;
    text.push("</li>\n")
}

/// Appends the path of a file, with the address of its page where it has one.
#[tactic(auto, unfolding(crate::specs::Pages::file_link))]
fn push_file_link(alloc: Global, text: &mut Text, path: &str, paged: bool) -> Mem<()>
    ensures { OnOk result (text.new ≡ text.old ++ file_link path.now paged) }
{
    if !paged {
        return text.push_escaped(path);
    }
    text.push("<a href=\"/src/")?;
    push_address(alloc, text, path)?;
    text.push("\">")?;
    text.push_escaped(path)?;
    text.push("</a>")
}

/// The page that says one thing, as its title and its heading.
pub(crate) fn message_page(alloc: Global, title: &str) -> Mem<Vec<u8>>
    ensures { IfOk result (λ page. page.items ≡ message_page title.now) }
{
    let mut text = start_page(alloc, title)?;
    push_message(&mut text, title)?;
    end_page(text)
}

/// Appends a heading.
#[tactic(auto, unfolding(crate::specs::Pages::message))]
fn push_message(text: &mut Text, title: &str) -> Mem<()>
    ensures { OnOk result (text.new ≡ text.old ++ message title.now) }
{
    text.push("<h1>")?;
    text.push_escaped(title)?;
    text.push("</h1>\n")
}
