use plain_data::{Mem, NoMemory};
use text_out::*;

#[test]
fn each_push_appends(rt: HostRuntime) -> Mem<()> {
    let mut text = Text::new(rt.alloc());
    text.push("<p>")?;
    text.push_escaped("a<b> & \"c\" 'd' é")?;
    text.push_number(0)?;
    text.push_number(18_446_744_073_709_551_615)?;
    text.push_escaped("")?;
    text.push_escaped("&&")?;
    let bytes = text.into_bytes();
    assert!(rt;
        bytes.as_slice()
            == "<p>a&lt;b&gt; &amp; &quot;c&quot; &#39;d&#39; é018446744073709551615&amp;&amp;".as_bytes()
    );
    Ok(())
}
