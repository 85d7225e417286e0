// Where every attribute value of a sheet stands, exported to C and Rust.
#![tactic(auto)]

ghost use Rattle.std.specs.Prelude.{length};
ghost use Rattle.views.specs.Views.{views_of, PermittedViews};

#[unsafe(no_mangle)]
pub extern "C" fn lumintayag_views(doc: &[u8], table: &mut [u32], answer: &mut [u32]) -> u32
    ensures { PermittedViews (views_of doc.now table.old) (length answer.old)
        result table.new answer.new }
{
    views::lumintayag_views(doc, table, answer)
}
