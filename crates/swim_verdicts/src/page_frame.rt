//! How pages about verdicts look.

/// The rest of a page's head, and how its body begins.
pub const PAGE_STYLE: &[u8] = br##"<meta charset="utf-8">
<meta name="viewport" content="width=device-width,initial-scale=1">
<meta name="color-scheme" content="light dark">
<link rel="icon" href="data:,">
<style>
:root { --page: #fff; --line: #d8dee4; --ink: #1f2328; --quiet: #59636e; --alarm: #cf222e; --link: #0969da }
@media (prefers-color-scheme: dark) {
  :root { --page: #0d1117; --line: #2a313c; --ink: #e6edf3; --quiet: #9198a1; --alarm: #ff7b72; --link: #58a6ff }
}
body { margin: 0 auto; max-width: 60rem; padding: 1.25rem 1.25rem 2.5rem; background: var(--page);
  color: var(--ink); font: 15px/1.5 system-ui, -apple-system, "Segoe UI", Helvetica, Arial, sans-serif }
h1 { font-size: 1.35rem; line-height: 1.3; margin: 1rem 0 0 }
h2 { font-size: 1rem; margin: 2rem 0 .5rem }
p { margin: .25rem 0 }
a { color: var(--link) }
code, pre { font-family: ui-monospace, Menlo, Consolas, "DejaVu Sans Mono", monospace; font-size: .92em }
pre { white-space: pre-wrap; overflow-wrap: anywhere; margin: .25rem 0 }
table { border-collapse: collapse; width: 100%; margin-top: .75rem }
th, td { text-align: left; padding: .45rem 1.25rem .45rem 0; border-bottom: 1px solid var(--line);
  vertical-align: baseline }
th { color: var(--quiet); font-weight: 500; width: 30% }
.alarm { border-left: 4px solid var(--alarm); padding-left: .75rem }
.wide { overflow-x: auto; border: 1px solid var(--line); border-radius: 6px; background: var(--page) }
.wide:focus-visible, a:focus-visible { outline: 3px solid var(--link); outline-offset: 2px }
</style>
</head>
<body>
<nav><a href="/">All members</a></nav>
<main>
"##;
