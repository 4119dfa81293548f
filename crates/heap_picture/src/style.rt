// What is the same in each picture: the colours, for light and dark pages.
ghost use Rattle.std.specs.Prelude.{◌≡◌};
ghost use Rattle.heap_picture.specs.Style.{style};

const STYLE: &str = "\
<title>A heap after a run</title>
<style>
text{font:13px ui-sans-serif,system-ui,Helvetica,Arial,sans-serif;fill:#1f2328}
.m{font-family:ui-monospace,SFMono-Regular,Menlo,Consolas,monospace;font-size:11px}
.h{font-size:20px;font-weight:600}.n{font-size:19px;font-weight:600}.q{font-weight:600}.e{text-anchor:end}.c{text-anchor:middle}
.none,.wire,.mark,.su,.sh{fill:none}.none{pointer-events:all}.su,.sh{shape-rendering:crispEdges}.panel{rx:6px}
.paper{fill:#fff}.panel{fill:#f6f8fa}.line{fill:#d1d9e0}.u{fill:#0969b5}.f{fill:#f2a900}.v{fill:#e0437d}.t{fill:#dfd5b0}.o{fill:#1f2328}.w{fill:#5a8500}.l{fill:#f0531f}.heap{fill:#cfe0f2}.gone{fill:#b7a2dd}.no{fill:#cf222e}.wire{stroke:#59636e}.mark{stroke:#1f2328}.su{stroke:#0969b5}.sh{stroke:#cfe0f2}
text.faint{fill:#59636e}text.in{fill:#fff}text.on{fill:#1f2328}
@media(prefers-color-scheme:dark){text{fill:#f0f6fc}.paper{fill:#0d1117}.panel{fill:#151b23}.line{fill:#3d444d}.u{fill:#4aa3ea}.f{fill:#d9980a}.v{fill:#f03579}.t{fill:#4f4932}.o{fill:#c9d1d9}.w{fill:#a3d65c}.l{fill:#e8590c}.heap{fill:#203349}.gone{fill:#66539c}.no{fill:#ff7b72}.wire{stroke:#9198a1}.mark{stroke:#f0f6fc}.su{stroke:#4aa3ea}.sh{stroke:#203349}text.faint{fill:#9198a1}text.in{fill:#0d1117}text.on{fill:#0d1117}}
</style>
<rect class=\"paper\" width=\"100%\" height=\"100%\" rx=\"8\"/>
";

/// The title, the styles and the background. The colours differ in brightness, so that whoever does not see red and green
/// tells them apart.
#[tactic(auto, unfolding(crate::specs::Style::style))]
pub fn style() -> &'static str
    ensures { result.now ≡ style }
{
    STYLE
}
